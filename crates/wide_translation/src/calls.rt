//! Functions and methods.

ghost use Rattle.std.specs.Prelude.{◌≡◌, [], IfOk};
ghost use Rattle.cel_reader.specs.Tree.{view};
ghost use Rattle.wide_meaning.specs.Functions as functions;
ghost use Rattle.wide_meaning.specs.declared.function.Method.TheVariants as methods;
ghost use Rattle.wide_translation.specs.Names as names;
ghost use Rattle.wide_translation.specs.Carried.{UnknownName, TakenName, OptionalValue, listed, refused, taken};
ghost use Rattle.wide_translation.specs.Declarations.{IsRefusal, ReturnsCarried, carried_view};
ghost use Rattle.wide_translation.specs.Forms as forms;
ghost use Rattle.wide_translation.specs.Layers.{held_or_tree, held_or_list_tree};
ghost use Rattle.wide_translation.specs.Translated as specs;
ghost use Rattle.wide_kinds.specs.Kinds as kinds;
ghost use Rattle.cel_reader.specs.Tree as node;

use crate::carried::{Carried, list_of, value_of};
use crate::method_names::method_name;
use crate::translation_error::TranslationError;
use crate::{build, built, conversions, list_functions};
use cel_macros::TextTest;
use cel_reader::{BinaryOperator, Expr};
use std::alloc::{AllocError, Global};
use wide_kinds::{ValueKind, joined_kind};
use wide_meaning::{Function, Method, Qualified};

/// The error for a name that has no meaning here.
pub(crate) fn unknown(alloc: Global, name: &str) -> TranslationError
    ensures { IsRefusal (refused (UnknownName name.now)) result }
{
    match String::from_str(alloc, name) {
        Ok(copy) => TranslationError::UnknownName(copy),
        Err(_) => TranslationError::Memory,
    }
}

/// The error for an iteration name that the translation needs.
pub(crate) fn taken_name(alloc: Global, name: &str) -> TranslationError
    ensures { IsRefusal (refused (TakenName name.now)) result }
{
    match String::from_str(alloc, name) {
        Ok(copy) => TranslationError::TakenName(copy),
        Err(_) => TranslationError::Memory,
    }
}

/// The error for a method that has no meaning here.
pub(crate) fn unknown_method(alloc: Global, method: Method) -> TranslationError
    ensures { IsRefusal (refused (UnknownName (functions.method_name method))) result }
{
    unknown(alloc, method_name(method))
}

/// A function of a value of this kind.
fn function_of(
    alloc: Global,
    function: Function,
    kind: ValueKind,
    of: Expr,
) -> Result<Carried, AllocError>
    ensures { IfOk result (λ c. specs.function_carried function kind (view of) ≡ taken (carried_view c)) }
{
    match function {
        Function::Size => {
            let tree = build::call(alloc, "size", of)?;
            Ok(Carried::Plain(ValueKind::Int, tree))
        }
        Function::String => {
            let tree = conversions::string(alloc, kind, of)?;
            Ok(Carried::Plain(ValueKind::String, tree))
        }
        Function::Dyn => {
            let tree = build::call(alloc, "dyn", of)?;
            Ok(Carried::Plain(ValueKind::Dyn, tree))
        }
        Function::Bool => {
            let tree = conversions::bool_of(alloc, kind, of)?;
            Ok(Carried::Plain(ValueKind::Bool, tree))
        }
    }
}

/// A function of an operand.
pub(crate) fn function(
    alloc: Global,
    function: Function,
    argument: Carried,
) -> Result<Carried, TranslationError>
    ensures { ReturnsCarried (specs.on_plain (carried_view argument) (specs.function_carried function)) result }
{
    let Some((kind, of)) = value_of(argument) else {
        return Err(TranslationError::OptionalValue);
    };
    Ok(function_of(alloc, function, kind, of)?)
}

/// `optional.of` of an operand.
pub(crate) fn optional_of(alloc: Global, argument: Carried) -> Result<Carried, TranslationError>
    ensures { ReturnsCarried (specs.on_plain (carried_view argument) (λ k a. taken (listed k (forms.one_tree a)))) result }
{
    let Some((kind, of)) = value_of(argument) else {
        return Err(TranslationError::OptionalValue);
    };
    Ok(Carried::Listed(kind, build::one(alloc, of)?))
}

/// `optional.ofNonZeroValue` of an operand.
pub(crate) fn optional_of_non_zero(
    alloc: Global,
    argument: Carried,
) -> Result<Carried, TranslationError>
    ensures { ReturnsCarried (specs.on_plain (carried_view argument) (λ k a. taken (listed k (specs.once a forms.non_zero_tree)))) result }
{
    let Some((kind, of)) = value_of(argument) else {
        return Err(TranslationError::OptionalValue);
    };
    Ok(Carried::Listed(kind, conversions::non_zero(alloc, of)?))
}

/// A function with a namespace and no argument.
pub(crate) fn qualified(
    alloc: Global,
    found: Qualified,
    name: &str,
) -> Result<Carried, TranslationError>
    ensures { ReturnsCarried (specs.qualified_translation found name.now []) result }
{
    match found {
        Qualified::OptionalNone => Ok(Carried::Listed(ValueKind::Dyn, build::empty(alloc))),
        _ => Err(unknown(alloc, name)),
    }
}

/// A test of a text with an operand.
pub(crate) fn tested(
    alloc: Global,
    test: TextTest,
    of: Expr,
    argument: Carried,
) -> Result<Carried, TranslationError>
    ensures { ReturnsCarried (specs.on_plain (carried_view argument) (λ j b. taken (specs.test_carried test (view of) b))) result }
{
    let Some((_, second)) = value_of(argument) else {
        drop(of);
        return Err(TranslationError::OptionalValue);
    };
    let name = match test {
        TextTest::StartsWith => "startsWith",
        TextTest::EndsWith => "endsWith",
        TextTest::Contains => "contains",
    };
    let tree = build::method_with(alloc, of, name, second)?;
    Ok(Carried::Plain(ValueKind::Bool, tree))
}

/// The value of an optional value.
fn value(alloc: Global, of: Carried) -> Result<Carried, TranslationError>
    ensures { ReturnsCarried (specs.value_carried (carried_view of)) result }
{
    match of {
        Carried::Plain(_, _) => Err(unknown(alloc, "value")),
        Carried::Guarded(kind, _, value) => Ok(Carried::Plain(kind, value)),
        Carried::Listed(kind, list) => {
            let tree = build::first(alloc, list)?;
            Ok(Carried::Plain(kind, tree))
        }
    }
}

/// Whether the list that the translation's name denotes is empty.
fn held_is_empty(alloc: Global) -> Result<Expr, AllocError>
    ensures { IfOk result (λ e. view e ≡ forms.is_empty_tree forms.held) }
{
    let none = Ok(build::empty(alloc));
    built::binary(alloc, BinaryOperator::Equal, build::held(alloc), none)
}

/// The first item of the list that the translation's name denotes.
fn held_first(alloc: Global) -> Result<Expr, AllocError>
    ensures { IfOk result (λ e. view e ≡ forms.first_tree forms.held) }
{
    built::first(alloc, build::held(alloc))
}

/// The item of the list that the translation's name denotes, or a default if the list is empty.
fn held_or(alloc: Global, default: Expr) -> Result<Expr, AllocError>
    ensures { IfOk result (λ e. view e ≡ held_or_tree (view default)) }
{
    built::ternary(alloc, held_is_empty(alloc), Ok(default), held_first(alloc))
}

/// The item of a list, or a default if the list is empty.
fn item_or(alloc: Global, list: Expr, default: Expr) -> Result<Expr, AllocError>
    ensures { IfOk result (λ e. view e ≡ forms.let_tree names.held_name (view list) (held_or_tree (view default))) }
{
    built::bound(alloc, Ok(list), held_or(alloc, default))
}

/// The value of an optional value, or a default.
fn or_plain(
    alloc: Global,
    of: Carried,
    other: ValueKind,
    default: Expr,
) -> Result<Carried, TranslationError>
    ensures { ReturnsCarried (specs.or_value_carried (carried_view of) other (view default)) result }
{
    match of {
        Carried::Plain(_, tree) => {
            drop(tree);
            drop(default);
            Err(unknown(alloc, "orValue"))
        }
        Carried::Guarded(kind, guard, value) => {
            let chosen = build::ternary(alloc, guard, value, default)?;
            Ok(Carried::Plain(joined_kind(kind, other), chosen))
        }
        Carried::Listed(kind, list) => {
            let chosen = item_or(alloc, list, default)?;
            Ok(Carried::Plain(joined_kind(kind, other), chosen))
        }
    }
}

/// The value of an optional value, or an operand.
pub(crate) fn or_value(
    alloc: Global,
    of: Carried,
    other: Carried,
) -> Result<Carried, TranslationError>
    ensures { ReturnsCarried (specs.on_plain (carried_view other) (specs.or_value_carried (carried_view of))) result }
{
    let Some((kind, default)) = value_of(other) else {
        drop(of);
        return Err(TranslationError::OptionalValue);
    };
    or_plain(alloc, of, kind, default)
}

/// The list that the translation's name denotes, or another if it is empty.
fn held_or_list(alloc: Global, other: Expr) -> Result<Expr, AllocError>
    ensures { IfOk result (λ e. view e ≡ held_or_list_tree (view other)) }
{
    built::ternary(alloc, held_is_empty(alloc), Ok(other), build::held(alloc))
}

/// An optional value as a list; a value as it is.
pub(crate) fn as_list(alloc: Global, of: Carried) -> Result<Carried, AllocError>
    ensures { IfOk result (λ c. carried_view c ≡ specs.as_list (carried_view of)) }
{
    match of {
        Carried::Plain(kind, tree) => Ok(Carried::Plain(kind, tree)),
        Carried::Guarded(kind, guard, value) => {
            Ok(Carried::Listed(kind, build::guarded(alloc, guard, value)?))
        }
        Carried::Listed(kind, list) => Ok(Carried::Listed(kind, list)),
    }
}

/// The list of a value if its guard holds, or another list.
fn guarded_list_or(alloc: Global, guard: Expr, value: Expr, other: Expr) -> Result<Expr, AllocError>
    ensures { IfOk result (λ e. view e ≡ node.ternary (view guard) (forms.one_tree (view value)) (view other)) }
{
    built::ternary(alloc, Ok(guard), build::one(alloc, value), Ok(other))
}

/// A list, or another if it is empty.
fn list_or(alloc: Global, list: Expr, other: Expr) -> Result<Expr, AllocError>
    ensures { IfOk result (λ e. view e ≡ forms.let_tree names.held_name (view list) (held_or_list_tree (view other))) }
{
    built::bound(alloc, Ok(list), held_or_list(alloc, other))
}

/// A value if its guard holds, or another optional value.
fn guarded_or(
    alloc: Global,
    kind: ValueKind,
    guard: Expr,
    value: Expr,
    other: Carried,
) -> Result<Carried, TranslationError>
    ensures { ReturnsCarried (specs.from_list OptionalValue (carried_view other) (λ j m. taken (listed (kinds.joined_kind kind j) (node.ternary (view guard) (forms.one_tree (view value)) m)))) result }
{
    let Some((next, second)) = list_of(other) else {
        drop(guard);
        drop(value);
        return Err(TranslationError::OptionalValue);
    };
    let chosen = guarded_list_or(alloc, guard, value, second)?;
    Ok(Carried::Listed(joined_kind(kind, next), chosen))
}

/// An optional value as a list, or another optional value.
fn listed_or(
    alloc: Global,
    kind: ValueKind,
    list: Expr,
    other: Carried,
) -> Result<Carried, TranslationError>
    ensures { ReturnsCarried (specs.from_list OptionalValue (carried_view other) (λ j m. taken (listed (kinds.joined_kind kind j) (forms.let_tree names.held_name (view list) (held_or_list_tree m))))) result }
{
    let Some((next, second)) = list_of(other) else {
        drop(list);
        return Err(TranslationError::OptionalValue);
    };
    let chosen = list_or(alloc, list, second)?;
    Ok(Carried::Listed(joined_kind(kind, next), chosen))
}

/// An optional value, or another if it has no value.
pub(crate) fn or(alloc: Global, of: Carried, other: Carried) -> Result<Carried, TranslationError>
    ensures { ReturnsCarried (specs.or_carried (carried_view of) (carried_view other)) result }
{
    let list = match as_list(alloc, other) {
        Ok(list) => list,
        Err(failed) => {
            drop(of);
            return Err(failed.into());
        }
    };
    match of {
        Carried::Plain(_, tree) => {
            drop(tree);
            drop(list);
            Err(unknown(alloc, "or"))
        }
        Carried::Guarded(kind, guard, value) => guarded_or(alloc, kind, guard, value, list),
        Carried::Listed(kind, first) => listed_or(alloc, kind, first, list),
    }
}

/// Whether an optional value has a value.
fn has_value(alloc: Global, of: Carried) -> Result<Carried, TranslationError>
    ensures { ReturnsCarried (specs.has_value_translation (carried_view of)) result }
{
    match of {
        Carried::Plain(_, tree) => {
            drop(tree);
            Err(unknown(alloc, "hasValue"))
        }
        Carried::Guarded(_, guard, value) => {
            drop(value);
            Ok(Carried::Plain(ValueKind::Bool, guard))
        }
        Carried::Listed(_, list) => {
            let tree = build::binary(alloc, BinaryOperator::NotEqual, list, build::empty(alloc))?;
            Ok(Carried::Plain(ValueKind::Bool, tree))
        }
    }
}

/// The size of an operand.
fn size(alloc: Global, of: Carried) -> Result<Carried, TranslationError>
    ensures { ReturnsCarried (specs.method_carried methods.Size (carried_view of) []) result }
{
    let Some((_, operand)) = value_of(of) else {
        return Err(TranslationError::OptionalValue);
    };
    let tree = build::method(alloc, operand, "size")?;
    Ok(Carried::Plain(ValueKind::Int, tree))
}

/// A method without arguments.
pub(crate) fn method(alloc: Global, found: Method, of: Carried) -> Result<Carried, TranslationError>
    ensures { ReturnsCarried (specs.method_carried found (carried_view of) []) result }
{
    match found {
        Method::Size => size(alloc, of),
        Method::HasValue => has_value(alloc, of),
        Method::Value => value(alloc, of),
        Method::First => list_functions::first(alloc, of),
        Method::Last => list_functions::last(alloc, of),
        Method::Min => list_functions::extreme(alloc, BinaryOperator::LessEqual, of),
        Method::Max => list_functions::extreme(alloc, BinaryOperator::GreaterEqual, of),
        _ => {
            drop(of);
            Err(unknown_method(alloc, found))
        }
    }
}
