//! Laws of code. Each is the clause of a function that does nothing.
ghost use Rattle.expression_code.specs.Engine.{OwnBudgets};
ghost use Rattle.expression_code.specs.Gives.Aggregates.{ListGives, MapGives};
ghost use Rattle.expression_code.specs.Gives.Arithmetic.{AdditionsGive, NegationGives, ProductsGive};
ghost use Rattle.expression_code.specs.Gives.Comparison.{ComparisonGives};
ghost use Rattle.expression_code.specs.Gives.KeptLists.{KeptListsGive};
ghost use Rattle.expression_code.specs.Gives.Leaves.{LeavesGive, LeavesName};
ghost use Rattle.expression_code.specs.Gives.Logic.{LogicGives};
ghost use Rattle.expression_code.specs.Gives.Folds.{MacroGives, MapWhereGives};
ghost use Rattle.expression_code.specs.Gives.Paths.{PathsGive};
ghost use Rattle.expression_code.specs.Gives.Selection.{SelectionGives};
ghost use Rattle.expression_code.specs.Helpers.{HelpersAnswer};
ghost use Rattle.expression_code.specs.Loops.{FoldGives};
ghost use Rattle.expression_code.specs.MacroRows.{MacroRowsStand};
ghost use Rattle.expression_code.specs.Operators.{OneGives, TwoGives, ConvertsThen, CombinesThen, CallsGive};
ghost use Rattle.expression_code.specs.Pieces.{SpelledStands};
ghost use Rattle.expression_code.specs.Programs.{ProgramExits};
ghost use Rattle.expression_code.specs.Rows.{RunEndRowsHold};
ghost use Rattle.expression_code.specs.Scopes.{LaterGives, NoScope, RoutineReturns, ScopeBegins, ScopeGives, ScopeGrows, WiderGives};
ghost use Rattle.expression_code.specs.Variables.{VariableGives};

use bpf_machine::laws::decodes_spelling;

/// If the code contains the encoding of a piece, the machine finds the piece's instructions there.
#[tactic(auto, using(crate::proofs::Spelled::spelled_stands))]
pub fn spelled_stands()
    ensures { SpelledStands }
{
    decodes_spelling();
}

/// The result of each helper, for given operand values.
#[tactic(auto, using(crate::proofs::HelperAnswers::helpers))]
pub fn helpers_answer()
    ensures { HelpersAnswer }
{}

/// The code of one or two operands in registers, followed by a piece, gives what the piece computes
/// from them. A piece may follow another one, and the call of a helper is such a piece.
#[tactic(auto, using(crate::proofs::Operators::one_gives, crate::proofs::Operators::two_gives, crate::proofs::Operators::converts_then, crate::proofs::Operators::combines_then, crate::proofs::Operators::calls_give))]
pub fn operands_give()
    ensures one { OneGives }
    ensures two { TwoGives }
    ensures converts { ConvertsThen }
    ensures combines { CombinesThen }
    ensures calls { CallsGive }
{}

/// The code of operands can be composed to code for `&&`, `||`, `!` and the conditional. `&&` and
/// `||` skip the right side if the left side decides, and only the chosen branch of a conditional
/// runs.
#[tactic(auto, using(crate::proofs::Logic::logic_gives))]
pub fn logic_gives()
    ensures { LogicGives }
{}

/// The code of items can be composed to code for a list, and the code of keys and values to code
/// for a map. The result is the error if a part is the error, a key is repeated, or a key is not a
/// text. It stops for a depth only if an item or a value already has the greatest depth.
#[tactic(auto, using(crate::proofs::Lists::list_gives, crate::proofs::Maps::map_gives))]
pub fn aggregates_give()
    ensures list { ListGives }
    ensures map { MapGives }
{}

/// The pieces for comparisons and membership give their results.
#[tactic(auto, using(crate::proofs::Comparison::comparison_gives))]
pub fn comparison_gives()
    ensures { ComparisonGives }
{}

/// The pieces for `+`, on ints, texts and lists, and for `-` give their results. A result that does
/// not fit 64 bits signed is the error.
#[tactic(auto, using(crate::proofs::Additions::additions_give))]
pub fn additions_give()
    ensures { AdditionsGive }
{}

/// The pieces for `*`, `/` and `%` on ints give their results. A product that does not fit 64 bits
/// signed, a divisor of zero, and the smallest int divided by -1 give the error.
#[tactic(auto, using(crate::proofs::Multiplications::products_give))]
pub fn products_give()
    ensures { ProductsGive }
{}

/// The piece for negation gives its result. The negation of the smallest int is the error.
#[tactic(auto, using(crate::proofs::Negation::negation_gives))]
pub fn negation_gives()
    ensures { NegationGives }
{}

/// The code for a range, a first result and a turn can be composed to a loop over the range's
/// items, which gives the fold. It ends early if no further item changes the result.
pub fn fold_gives()
    ensures { FoldGives }
{}

/// Literals without parts and names have code that gives their values. Simple operands hold them.
#[tactic(auto, using(crate::proofs::Leaves::leaves_give, crate::proofs::Leaves::leaves_name))]
pub fn leaves_give()
    ensures give { LeavesGive }
    ensures name { LeavesName }
{}

/// Word 0 of the frame, if it keeps a path, is a simple operand that holds the path's value. The
/// code of the path, a store into the word, and code that uses it can be composed; the word is free
/// afterwards.
#[tactic(auto, using(crate::proofs::Paths::paths_give))]
pub fn paths_give()
    ensures { PathsGive }
{}

/// The code of a list of literals can be composed to code that keeps the list's value in a word of
/// the frame, or uses the value that it keeps. Before code that keeps lists, their words are emptied.
#[tactic(auto, using(crate::proofs::KeptLists::kept_lists_give))]
pub fn kept_lists_give()
    ensures { KeptListsGive }
{}

/// The code after one operand gives a field, whether it exists, a size or a text; the code after
/// two operands gives an index or a test of texts.
#[tactic(auto, using(crate::proofs::Selection::selection_gives))]
pub fn selection_gives()
    ensures { SelectionGives }
{}

/// The code of a range and of a part can be composed to code for each macro, within budgets counted
/// by visits and costs. `all` and `exists` end early, and a `map` with a predicate runs its
/// transform only if the predicate is true. A range that is neither a list nor a map gives the
/// error. The machine stops for a depth only if the new list would hold an item that is too deep.
pub fn macros_give()
    ensures macros { MacroGives }
    ensures map_where { MapWhereGives }
{}

/// The use of a variable gives its value. The cost of its routine counts as the variable's first
/// use.
#[tactic(auto, using(crate::proofs::Variables::variable_gives))]
pub fn variable_gives()
    ensures { VariableGives }
{}

/// The use of a variable of a scope, found by its name, gives the variable's value. A scope is
/// extended one variable at a time; the routine of each may use the earlier ones and returns to its
/// caller. Facts about a scope also hold if more variables follow it.
pub fn scopes_give()
    ensures uses { ScopeGives }
    ensures none { NoScope }
    ensures begins { ScopeBegins }
    ensures grows { ScopeGrows }
    ensures later { LaterGives }
    ensures wider { WiderGives }
    ensures returns { RoutineReturns }
{}

/// The budgets of a run are its own if no variable is first used in it, or if no first use is paid
/// for.
#[tactic(auto, using(crate::proofs::FirstUses::own_budgets))]
pub fn budgets_are_own()
    ensures { OwnBudgets }
{}

/// Programs run by hand, and the variables that runs use first.
#[tactic(auto, using(crate::proofs::Rows::rows_stand))]
pub fn rows_stand()
    ensures { RunEndRowsHold }
{}

/// Macros run by hand.
#[tactic(auto, using(crate::proofs::Rows::macro_rows_stand))]
pub fn macro_rows_stand()
    ensures { MacroRowsStand }
{}

/// A program whose code begins with a piece for a value and an exit leaves a reference of the
/// value, or has stopped for its charge or a depth, after its steps and those of its variables.
pub fn program_exits()
    ensures { ProgramExits }
{
    decodes_spelling();
}
