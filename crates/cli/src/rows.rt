//! Literal examples: refusals, their causes and numbers, and what the definitions give for them.
ghost use Rattle.cli.specs.EndingRows.{AskingRowsStand, EndingRowsStand, GivenRowsStand};
ghost use Rattle.cli.specs.Rows.{CauseRowsStand, ExpressionRowsStand, NumberRowsStand, RefusalLineRowsStand};

/// The line and the status of each refusal, and the refusal for each cause.
pub fn refusal_rows_stand()
    ensures lines { RefusalLineRowsStand }
    ensures expressions { ExpressionRowsStand }
    ensures causes { CauseRowsStand }
{}

/// Texts and the numbers that they represent.
#[tactic(auto, unfolding(crate::specs::Number::number_of))]
pub fn number_rows_stand()
    ensures { NumberRowsStand }
{}

/// Optional files, and what words of a command line ask for.
pub fn given_rows_stand()
    ensures files { GivenRowsStand }
    ensures words { AskingRowsStand }
{}

/// The ends of programs.
pub fn ending_rows_stand()
    ensures { EndingRowsStand }
{}
