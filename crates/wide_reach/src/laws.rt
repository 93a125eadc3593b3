//! The laws of the reach, each the contract of an empty function.

ghost use Rattle.wide_reach.specs.Law.{ScalarsAreContained, ValuesAreReached};
ghost use Rattle.wide_reach.specs.Rows.{ReachRows};
ghost use Rattle.wide_reach.specs.Variables.{VariablesAreInRange};

/// The value of an expression is among those of its reach.
#[tactic(auto, using(crate::proofs::Law::values_are_reached))]
pub fn values_are_reached()
    ensures { ValuesAreReached }
{}

/// After the variables of a policy, each that has a reach is in its range.
#[tactic(auto, using(crate::proofs::Variables::variables_are_in_range))]
pub fn variables_are_in_range()
    ensures { VariablesAreInRange }
{}

/// An int or a text that is reached is in the reach itself.
#[tactic(auto, using(crate::proofs::Reached::scalars_are_contained))]
pub fn scalars_are_contained()
    ensures { ScalarsAreContained }
{}

/// The expressions whose reach was worked out by hand.
pub fn rows_stand()
    ensures { ReachRows }
{}
