//! The laws of narrow expressions, each the contract of an empty function.

ghost use Rattle.wide_widths.specs.Law.{NarrowMeansWithin};
ghost use Rattle.wide_widths.specs.Rows.{NarrowRowsHold};

/// The value of a narrow expression is no wider than the documents and the literals.
#[tactic(auto, using(crate::proofs::Law::narrow_means_within))]
pub fn narrow_means_within()
    ensures { NarrowMeansWithin }
{}

/// The expressions that were judged by hand.
pub fn rows_stand()
    ensures { NarrowRowsHold }
{}
