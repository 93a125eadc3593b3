//! Checks single expressions.

ghost use Rattle.std.specs.Prelude.{◌≡◌};
ghost use Rattle.cel_reader.specs.Tree.{Tree};
ghost use Rattle.cel_macros.specs.CoreTree.{expanded};
ghost use Rattle.cel_types.specs.Declarations.{scope_of};
ghost use Rattle.cel_types.specs.Types.{allowed};
ghost use Rattle.cel_types.specs.Typing.{typing};
ghost use Rattle.cel_measures.specs.Measures.{need};
ghost use Rattle.policy_glue.specs.Checked.{ReadsAndExpands, IsExpanded, Judges, JudgesVariable, Sorts};
ghost use Rattle.policy_glue.specs.Checking.{expression_judged, other_type, types_of, with_typing};

use crate::compile_error::CompileError;
use crate::expression_error::ExpressionError;
use crate::part_kind::PartKind;
use cel_macros::{Core, expand};
use cel_measures::{depth, need};
use cel_reader::read;
use cel_types::{CelType, Scope, check};
use expression_code::limits::{VARIABLE_DEPTH_LIMIT, WORD_LIMIT};
use std::alloc::Global;

/// Parses the text and expands its macros.
fn expression(alloc: Global, text: &str) -> Result<Core, ExpressionError>
    ensures { ReadsAndExpands text.now result }
{
    let tree = read(alloc, text)?;
    Ok(expand(alloc, tree)?)
}

/// The type of an expression that may use the variables of the scope.
fn type_of(core: &Core, scope: &Scope) -> Result<CelType, ExpressionError>
    ensures { (a : Tree) → IsExpanded core.now a → result ≡ with_typing (typing a (scope_of scope.now)) (need (expanded a)) }
{
    let cel_type = check(core, scope)?;
    if need(core) > WORD_LIMIT {
        return Err(ExpressionError::NeedsTooManyWords);
    }
    Ok(cel_type)
}

/// Parses and checks an expression that may use the variables of the scope; returns its type too.
pub fn judged(alloc: Global, text: &str, scope: &Scope) -> Result<(Core, CelType), ExpressionError>
    ensures { Judges (expression_judged scope.now) text.now result }
{
    let core = expression(alloc, text)?;
    match type_of(&core, scope) {
        Ok(cel_type) => Ok((core, cel_type)),
        Err(error) => Err(error),
    }
}

/// Checks the expression of the variable at this place; returns its type and its depth too.
pub fn variable_judged(
    alloc: Global,
    place: usize,
    text: &str,
    scope: &Scope,
) -> Result<(Core, CelType, u64), CompileError>
    ensures { JudgesVariable scope.now place text.now result }
{
    match judged(alloc, text, scope) {
        Ok((core, cel_type)) => {
            let depth = depth(&core, scope);
            if depth > VARIABLE_DEPTH_LIMIT {
                Err(ExpressionError::VariableTooDeep.at(PartKind::Variable, place))
            } else {
                Ok((core, cel_type, depth))
            }
        }
        Err(error) => Err(error.at(PartKind::Variable, place)),
    }
}

/// Whether the expression of this kind of part may have this type.
fn may_have(part: PartKind, cel_type: CelType) -> bool
    ensures { result ≡ allowed (types_of part) cel_type }
{
    match part {
        PartKind::Message => matches!(cel_type, CelType::String | CelType::Dyn),
        _ => matches!(cel_type, CelType::Bool | CelType::Dyn),
    }
}

/// The error for an expression of another type.
fn other_type(part: PartKind) -> CompileError
    ensures { result ≡ other_type part }
{
    match part {
        PartKind::Message => CompileError::MessageNotAString,
        _ => CompileError::NotABool,
    }
}

/// Checks the expression of a condition, a validation or a message.
pub fn part_judged(
    alloc: Global,
    part: PartKind,
    place: usize,
    text: &str,
    scope: &Scope,
) -> Result<Core, CompileError>
    ensures { Sorts (types_of part) (other_type part) part place scope.now text.now result }
{
    match judged(alloc, text, scope) {
        Ok((core, cel_type)) => {
            if may_have(part, cel_type) {
                Ok(core)
            } else {
                Err(other_type(part))
            }
        }
        Err(error) => Err(error.at(part, place)),
    }
}
