//! Reads and writes of a few files, with their results by the definitions.
ghost use Rattle.host.specs.Rows.{FileRowsStand, FileWriteRowsStand};

/// Possible results of reads, and the codes of the errors.
pub fn file_rows_stand()
    ensures { FileRowsStand }
{}

/// Possible results of writes, and the files after them.
pub fn write_rows_stand()
    ensures { FileWriteRowsStand }
{}
