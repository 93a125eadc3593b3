//! The laws of widths, each the contract of an empty function.

ghost use Rattle.value_widths.specs.Parts.{PartsAreNarrower};
ghost use Rattle.value_widths.specs.Rows.{WidthRowsHold};

/// No part of a value is wider than the value.
#[tactic(auto, using(crate::proofs::Parts::parts_are_narrower))]
pub fn parts_are_narrower()
    ensures { PartsAreNarrower }
{}

/// The widths that were worked out by hand.
pub fn rows_stand()
    ensures { WidthRowsHold }
{}
