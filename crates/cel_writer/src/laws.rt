//! Laws of the texts, each the contract of an empty function.

ghost use Rattle.cel_writer.specs.Rows.{PrintedRowsHold};

/// Texts of expressions, worked by hand.
#[tactic(auto, unfolding(crate::specs::Printed::printed_in))]
pub fn printed_rows_hold()
    ensures { PrintedRowsHold }
{}
