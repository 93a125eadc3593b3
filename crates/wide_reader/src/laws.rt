//! The laws of the grammar, each proved as the contract of an empty function.

ghost use Rattle.wide_reader.specs.Laws.{HasOneWideTree, WideKeepsWithMoreRoom, HasOneWide, HasOneWideResult};
ghost use Rattle.wide_reader.specs.Shared.{ReadsTheProfile};

/// Words are at most one expression, and the same one if more brackets and conditionals may be open. A text is at most
/// one expression.
#[tactic(auto, using(crate::proofs::Theorems::whole_unique, crate::proofs::Theorems::more_room))]
pub fn one_tree()
    ensures one { HasOneWideTree }
    ensures kept { WideKeepsWithMoreRoom }
    ensures text { HasOneWide }
{}

/// Except for allocation failures, a text has at most one result, its tree or one error with its position.
#[tactic(auto, using(crate::proofs::OneResult::one_result))]
pub fn one_result()
    ensures { HasOneWideResult }
{}

/// Words that are an expression of the profile are the same wide expression.
#[tactic(auto, using(crate::proofs::Shared::reads_the_profile))]
pub fn profile_is_read()
    ensures { ReadsTheProfile }
{}
