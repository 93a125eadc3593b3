//! The laws of narrow ranges, each the contract of an empty function.

ghost use Rattle.wide_indices.specs.Law.{NarrowConditionsAreTabled, NarrowPoliciesAreTabled, NarrowRangesAreIndexed};
ghost use Rattle.wide_indices.specs.Rows.{IndexRowsHold};

/// As many indices as the environment is wide are enough for an expression whose ranges are narrow.
#[tactic(auto, using(crate::proofs::Indexed::narrow_ranges_are_indexed))]
pub fn narrow_ranges_are_indexed()
    ensures { NarrowRangesAreIndexed }
{}

/// As many indices as the documents are wide, and at least 16, are enough for a policy whose ranges are narrow.
#[tactic(auto, using(crate::proofs::Tabled::narrow_policies_are_tabled))]
pub fn narrow_policies_are_tabled()
    ensures { NarrowPoliciesAreTabled }
{}

/// They are enough for the match conditions of a policy.
#[tactic(auto, using(crate::proofs::Tabled::narrow_conditions_are_tabled))]
pub fn narrow_conditions_are_tabled()
    ensures { NarrowConditionsAreTabled }
{}

/// The expressions that were judged by hand.
pub fn rows_stand()
    ensures { IndexRowsHold }
{}
