//! The laws of the kinds, each the contract of an empty function.

ghost use Rattle.wide_kinds.specs.Laws.{KindsHold};

/// A literal and the result of an operator are of the kind that they are given.
#[tactic(auto, using(crate::proofs::Fitting::kinds_hold))]
pub fn kinds_hold()
    ensures { KindsHold }
{}
