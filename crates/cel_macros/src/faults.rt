//! Checks for invalid macros.

ghost use Rattle.std.specs.Prelude.{◌≡◌};
ghost use Rattle.std.specs.Prelude as list;
ghost use Rattle.cel_reader.specs.Tree.{view, trees, entries};
ghost use Rattle.cel_macros.specs.Macros as specs;
ghost use Rattle.cel_macros.specs.MacroFault.{macro_fault, trees_fault, entries_fault, has_fault, fold_fault, three_fault, name_fault, selection_fault, refusal};

use crate::macro_error::MacroError;
use crate::macros::Macro;
use crate::names::{is_has, is_taken, macro_named};
use cel_reader::Expr;

/// Refuses anything that is not a valid iteration name.
fn test_name(name: &Expr) -> Result<(), MacroError>
    ensures { result ≡ refusal (name_fault (specs.name_of (view name.now))) }
{
    match name {
        Expr::Name(name) => {
            if is_taken(name.as_str()) {
                return Err(MacroError::InvalidIterationName);
            }
            Ok(())
        }
        _ => Err(MacroError::InvalidIterationName),
    }
}

/// Refuses an argument of `has` that is not a selection.
fn test_selection(argument: &Expr) -> Result<(), MacroError>
    ensures { result ≡ refusal (selection_fault (specs.field_name (view argument.now))) }
{
    match argument {
        Expr::Select(..) => Ok(()),
        _ => Err(MacroError::HasWithoutSelection),
    }
}

/// Refuses arguments that `has` does not take.
#[tactic(auto, using(crate::proofs::Arguments::has_of_none, crate::proofs::Arguments::has_of_more))]
fn test_has(arguments: &[Expr]) -> Result<(), MacroError>
    ensures { result ≡ refusal (has_fault list.true (trees (list.map view arguments.now))) }
{
    match arguments {
        [argument] => test_selection(argument),
        _ => Err(MacroError::WrongArgumentCount),
    }
}

/// Refuses three arguments, with `name` the first, for any macro but `map`.
fn test_three(found: Macro, name: &Expr) -> Result<(), MacroError>
    ensures { result ≡ refusal (three_fault found (specs.name_of (view name.now))) }
{
    match found {
        Macro::Map => test_name(name),
        Macro::All | Macro::Exists | Macro::ExistsOne | Macro::Filter => Err(
            MacroError::WrongArgumentCount,
        ),
    }
}

/// Refuses arguments that the macro does not take.
#[tactic(auto, using(crate::proofs::Arguments::fold_of_few, crate::proofs::Arguments::fold_of_many, crate::proofs::Arguments::fold_of_three, crate::proofs::Arguments::fold_of_two))]
fn test_fold(found: Macro, arguments: &[Expr]) -> Result<(), MacroError>
    ensures { result ≡ refusal (fold_fault (list.Some found) (trees (list.map view arguments.now))) }
{
    match arguments {
        [name, _] => test_name(name),
        [name, _, _] => test_three(found, name),
        _ => Err(MacroError::WrongArgumentCount),
    }
}

/// Refuses a call of `has` that is invalid.
fn test_call(name: &str, arguments: &[Expr]) -> Result<(), MacroError>
    ensures { result ≡ refusal (has_fault (specs.is_has name.now) (trees (list.map view arguments.now))) }
{
    if is_has(name) {
        return test_has(arguments);
    }
    Ok(())
}

/// Refuses a method that is an invalid macro.
fn test_method(name: &str, arguments: &[Expr]) -> Result<(), MacroError>
    ensures { result ≡ refusal (fold_fault (specs.macro_named name.now) (trees (list.map view arguments.now))) }
{
    match macro_named(name) {
        None => Ok(()),
        Some(found) => test_fold(found, arguments),
    }
}

/// Refuses the first invalid macro in these expressions.
#[cycle(faults)]
#[tactic(auto, unfolding(crate::specs::MacroFault::macro_fault))]
fn test_list(items: &[Expr]) -> Result<(), MacroError>
    ensures { result ≡ refusal (trees_fault (trees (list.map view items.now))) }
{
    for item in items {
        test(item)?;
    }
    Ok(())
}

/// Refuses the first invalid macro in these keys and values.
#[cycle(faults)]
#[tactic(auto, unfolding(crate::specs::MacroFault::macro_fault))]
fn test_entries(pairs: &[(Expr, Expr)]) -> Result<(), MacroError>
    ensures { result ≡ refusal (entries_fault (entries (list.map (λ e. (view e.0, view e.1)) pairs.now))) }
{
    for (key, value) in pairs {
        test(key)?;
        test(value)?;
    }
    Ok(())
}

/// Refuses the first invalid macro: a node before its parts, parts from left to right.
#[cycle(faults)]
#[tactic(auto, unfolding(crate::specs::MacroFault::macro_fault))]
pub(crate) fn test(e: &Expr) -> Result<(), MacroError>
    ensures { result ≡ refusal (macro_fault (view e.now)) }
{
    match e {
        Expr::Literal(_) | Expr::Name(_) => Ok(()),
        Expr::Select(of, _) => test(of),
        Expr::Index(of, at) => {
            test(of)?;
            test(at)
        }
        Expr::Call(name, arguments) => {
            test_call(name.as_str(), arguments.as_slice())?;
            test_list(arguments.as_slice())
        }
        Expr::Method(of, name, arguments) => {
            test_method(name.as_str(), arguments.as_slice())?;
            test(of)?;
            test_list(arguments.as_slice())
        }
        Expr::Unary(_, operand) => test(operand),
        Expr::Binary(_, left, right) => {
            test(left)?;
            test(right)
        }
        Expr::Ternary(condition, yes, no) => {
            test(condition)?;
            test(yes)?;
            test(no)
        }
        Expr::List(items) => test_list(items.as_slice()),
        Expr::Map(pairs) => test_entries(pairs.as_slice()),
    }
}
