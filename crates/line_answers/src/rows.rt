//! Reports on lines by the definitions, worked by hand.
ghost use Rattle.line_answers.specs.Rows.{PassesRowsStand, TellsRowsStand, ToldRowsStand};

/// Reports on single lines.
pub fn told_rows_stand()
    ensures { ToldRowsStand }
{}

/// Answers that allow, and others.
pub fn passes_rows_stand()
    ensures { PassesRowsStand }
{}

/// Reports on several lines.
pub fn tells_rows_stand()
    ensures { TellsRowsStand }
{}
