//! The laws of the meaning, each the contract of an empty function.

ghost use Rattle.wide_meaning.specs.Rows.{WideRowsHold};

/// The meanings of expressions that were worked out by hand.
pub fn rows_stand()
    ensures { WideRowsHold }
{}
