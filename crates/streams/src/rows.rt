//! Inputs and streams with their values by the definitions.
ghost use Rattle.streams.specs.Rows.{FailureRowsStand, LineRowsStand, WriteRowsStand};

/// Inputs with their lines, and the codes of the errors.
#[tactic(auto, unfolding(crate::specs::Lines::cut))]
pub fn line_rows_stand()
    ensures { LineRowsStand }
{}

/// The number of reads and writes that fail.
pub fn failure_rows_stand()
    ensures { FailureRowsStand }
{}

/// The bytes that are written to a stream.
pub fn write_rows_stand()
    ensures { WriteRowsStand }
{}
