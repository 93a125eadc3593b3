//! Fields, and whether a field is there.

ghost use Rattle.std.specs.Prelude.{◌≡◌, IfOk, IsOkAnd};
ghost use Rattle.cel_reader.specs.Tree as node;
ghost use Rattle.cel_reader.specs.Tree.{view};
ghost use Rattle.cel_reader.specs.declared.operator.BinaryOperator.TheVariants as operation;
ghost use Rattle.wide_kinds.specs.declared.kind.ValueKind.TheVariants as kinds;
ghost use Rattle.wide_translation.specs.Carried.{plain, taken};
ghost use Rattle.wide_translation.specs.Declarations.{ReturnsCarried, carried_view};
ghost use Rattle.wide_translation.specs.Forms as forms;
ghost use Rattle.wide_translation.specs.Translated as specs;

use crate::built::{self, Built};
use crate::carried::Carried;
use crate::names::HELD;
use crate::translation_error::TranslationError;
use crate::{build, presence, together};
use cel_reader::{BinaryOperator, Expr};
use std::alloc::{AllocError, Global};
use wide_kinds::ValueKind;
use wide_reader::Access;

/// The optional field of a value.
fn optional_field(
    alloc: Global,
    kind: ValueKind,
    of: Expr,
    field: &str,
) -> Result<Carried, AllocError>
    ensures { IfOk result (λ c. carried_view c ≡ specs.optional_field (forms.is_simple (view of)) kind (view of) field.now) }
{
    if build::is_simple(&of) {
        let guard = presence::present_of(alloc, kind, &of, field);
        let (guard, value) = together::both(guard, presence::access(alloc, of, field))?;
        return Ok(Carried::Guarded(ValueKind::Dyn, guard, value));
    }
    let list = built::bound(alloc, Ok(of), presence::field_list(alloc, field));
    Ok(Carried::Listed(ValueKind::Dyn, list?))
}

/// The field of the value of an optional value.
fn field_of_list(alloc: Global, list: Expr, field: &str) -> Result<Carried, AllocError>
    ensures { IfOk result (λ c. carried_view c ≡ specs.field_of_list (view list) field.now) }
{
    let fields = built::flat(alloc, HELD, Ok(list), presence::field_list(alloc, field));
    Ok(Carried::Listed(ValueKind::Dyn, fields?))
}

/// Whether a guard holds and a value has a field.
fn also_present(alloc: Global, guard: Expr, value: &Expr, field: &str) -> Built
    ensures { IfOk result (λ e. view e ≡ node.binary operation.And (view guard) (forms.present_tree (view value.now) field.now)) }
{
    let present = presence::present(alloc, value, field);
    built::binary(alloc, BinaryOperator::And, Ok(guard), present)
}

/// The field of the value of an optional value with a guard.
fn field_of_guarded(
    alloc: Global,
    guard: Expr,
    value: Expr,
    field: &str,
) -> Result<Carried, AllocError>
    ensures { IfOk result (λ c. carried_view c ≡ specs.field_of_guarded (forms.is_simple (view value)) (view guard) (view value) field.now) }
{
    if build::is_simple(&value) {
        let test = also_present(alloc, guard, &value, field);
        let (test, inner) = together::both(test, presence::access(alloc, value, field))?;
        return Ok(Carried::Guarded(ValueKind::Dyn, test, inner));
    }
    let list = build::guarded(alloc, guard, value)?;
    field_of_list(alloc, list, field)
}

/// The field of a value.
fn plain_field(alloc: Global, of: Expr, field: &str) -> Result<Carried, AllocError>
    ensures { IfOk result (λ c. carried_view c ≡ plain kinds.Dyn (forms.access_tree (view of) field.now)) }
{
    let inner = presence::access(alloc, of, field)?;
    Ok(Carried::Plain(ValueKind::Dyn, inner))
}

/// The field of an operand.
pub(crate) fn field(
    alloc: Global,
    access: Access,
    name: &str,
    of: Carried,
) -> Result<Carried, AllocError>
    ensures { IfOk result (λ c. carried_view c ≡ specs.field_carried access name.now (carried_view of)) }
{
    match of {
        Carried::Plain(kind, tree) => match access {
            Access::Plain => plain_field(alloc, tree, name),
            Access::Optional => optional_field(alloc, kind, tree, name),
        },
        Carried::Guarded(_, guard, value) => field_of_guarded(alloc, guard, value, name),
        Carried::Listed(_, list) => field_of_list(alloc, list, name),
    }
}

/// Whether an optional value has a value.
pub(crate) fn has_value(alloc: Global, of: Carried) -> Built
    ensures { IfOk result (λ e. view e ≡ specs.has_value_carried (carried_view of)) }
{
    match of {
        Carried::Plain(_, tree) => Ok(tree),
        Carried::Guarded(_, guard, value) => {
            drop(value);
            Ok(guard)
        }
        Carried::Listed(_, list) => {
            build::binary(alloc, BinaryOperator::NotEqual, list, build::empty(alloc))
        }
    }
}

/// Whether the value that the translation's name denotes has a field.
fn held_has(alloc: Global, field: &str) -> Built
    ensures { IfOk result (λ e. view e ≡ forms.present_tree forms.held field.now) }
{
    let held = build::held(alloc)?;
    let test = presence::present(alloc, &held, field);
    drop(held);
    test
}

/// Whether a value has a field.
fn has_plain(alloc: Global, kind: ValueKind, of: Expr, field: &str) -> Built
    ensures { IfOk result (λ e. view e ≡ specs.has_carried field.now (plain kind (view of))) }
{
    if build::is_simple(&of) {
        let test = presence::present_of(alloc, kind, &of, field);
        drop(of);
        return test;
    }
    built::bound(alloc, Ok(of), held_has(alloc, field))
}

/// Whether an optional value that was built before has a value.
fn has_built(alloc: Global, of: Result<Carried, AllocError>) -> Built
    ensures { IfOk result (λ e. IsOkAnd of (λ c. view e ≡ specs.has_value_carried (carried_view c))) }
{
    has_value(alloc, of?)
}

/// Whether an operand has a field.
pub(crate) fn has(alloc: Global, name: &str, of: Carried) -> Built
    ensures { IfOk result (λ e. view e ≡ specs.has_carried name.now (carried_view of)) }
{
    match of {
        Carried::Plain(kind, tree) => has_plain(alloc, kind, tree, name),
        Carried::Guarded(_, guard, value) => {
            has_built(alloc, field_of_guarded(alloc, guard, value, name))
        }
        Carried::Listed(_, list) => has_built(alloc, field_of_list(alloc, list, name)),
    }
}

/// Whether an operand has a field, as a value.
pub(crate) fn tested(alloc: Global, name: &str, of: Carried) -> Result<Carried, TranslationError>
    ensures { ReturnsCarried (taken (plain kinds.Bool (specs.has_carried name.now (carried_view of)))) result }
{
    let tree = has(alloc, name, of)?;
    Ok(Carried::Plain(ValueKind::Bool, tree))
}
