//! Laws of the code of expressions. Each is the contract of an empty function.

ghost use Rattle.tree_code.specs.CostRows.{CostRows};
ghost use Rattle.tree_code.specs.Layer.{ExpressionGives, FramesAreEnough, VariableIsTaken, VariableJoins};
ghost use Rattle.tree_code.specs.Laws.{CodeGives, CodeIsShort, RoutineGives, RoutineIsPassed, TextsStay, TypedIsAccepted, WholeIsShort};

/// Costs of expressions, worked by hand.
pub fn costs_stand()
    ensures { CostRows }
{}

/// The code of an expression is short enough for 16-bit jumps in it. The code of a whole expression
/// is not longer than the code that keeps no field.
#[tactic(auto, using(crate::proofs::Lengths::short_code, crate::proofs::Whole::whole_less))]
pub fn code_is_short()
    ensures parts { CodeIsShort }
    ensures whole { WholeIsShort }
{}

/// Each expression that the type checker accepts has code.
#[tactic(auto, using(crate::proofs::Accepted::typed_accepted))]
pub fn typed_has_code()
    ensures { TypedIsAccepted }
{}

/// In each scope the code of an expression gives the expression's value, within its bounds on steps
/// and charge.
#[tactic(auto, using(crate::proofs::Computed::code_gives))]
pub fn code_gives()
    ensures { CodeGives }
{}

/// A scope can be extended by each variable whose routine is in the image.
pub fn routine_gives()
    ensures { RoutineGives }
{}

/// The texts of an expression stay at the addresses that its code uses, even if texts are added
/// later.
#[tactic(auto, using(crate::proofs::Lent::texts_stand))]
pub fn texts_stay()
    ensures { TextsStay }
{}

/// Code before a routine passes it in one step.
#[tactic(auto, using(crate::proofs::Layer::routine_is_passed))]
pub fn routine_is_passed()
    ensures { RoutineIsPassed }
{}

/// The code of an expression, as an emitter makes it, gives the expression's value, within its
/// bounds on steps and charge. This holds for each expression that the type checker accepts in a
/// scope of the emitter's first variables.
#[tactic(auto, using(crate::proofs::Layer::expression_gives, crate::proofs::Layer::frames_are_enough))]
pub fn expression_gives()
    ensures gives { ExpressionGives }
    ensures frames { FramesAreEnough }
{}

/// The variables of an emitter can be extended by each further variable whose routine is in the
/// image.
pub fn variables_join()
    ensures joins { VariableJoins }
    ensures taken { VariableIsTaken }
{}
