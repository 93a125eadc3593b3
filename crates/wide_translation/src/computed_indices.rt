//! Items and entries of indices that are computed.

ghost use Rattle.std.specs.Prelude.{◌≡◌, IfOk, Ok};
ghost use Rattle.cel_reader.specs.Tree.{view};
ghost use Rattle.cel_reader.specs.declared.expr.Expr.{Expr};
ghost use Rattle.wide_kinds.specs.declared.kind.ValueKind.TheVariants as kinds;
ghost use Rattle.wide_translation.specs.Built.{FormOf};
ghost use Rattle.wide_translation.specs.Carried.{plain};
ghost use Rattle.wide_translation.specs.ComputedIndices as specs;
ghost use Rattle.wide_translation.specs.Declarations.{carried_view};
ghost use Rattle.wide_translation.specs.Forms as forms;
ghost use Rattle.wide_translation.specs.Lists.{second};
ghost use Rattle.wide_translation.specs.Parts.{once};

use crate::build;
use crate::built::{self, Built};
use crate::carried::Carried;
use crate::copying::copy;
use crate::names::{HELD, SECOND};
use crate::pair_ranges::is_list;
use crate::presence::null_test;
use crate::together::both;
use cel_reader::{BinaryOperator, Expr, Literal};
use std::alloc::{AllocError, Global};
use wide_kinds::ValueKind;

// ---- whether there is an item or an entry

/// Whether a list has an item of this index.
fn inside(alloc: Global, of: Built, key: &Expr) -> Built
    ensures { FormOf (λ a. specs.inside_tree a (view key.now)) of result }
{
    let size = built::call(alloc, "size", of);
    let is_below = built::binary(alloc, BinaryOperator::Less, copy(alloc, key), size);
    let zero = Ok(Expr::Literal(Literal::Int(0)));
    let from_zero = built::binary(alloc, BinaryOperator::LessEqual, zero, copy(alloc, key));
    let no = Ok(Expr::Literal(Literal::Bool(false)));
    built::ternary(alloc, is_below, from_zero, no)
}

/// Whether a map has this key.
fn key_in(alloc: Global, of: &Expr, key: &Expr) -> Built
    ensures { IfOk result (λ e. view e ≡ specs.key_in_tree (view of.now) (view key.now)) }
{
    built::binary(alloc, BinaryOperator::In, copy(alloc, key), copy(alloc, of))
}

/// Whether a map has this key. The error for what is no map.
fn map_key(alloc: Global, of: &Expr, key: &Expr) -> Built
    ensures { IfOk result (λ e. view e ≡ specs.map_key_tree (view of.now) (view key.now)) }
{
    // What this test is of a map does not matter.
    let test = built::has(alloc, copy(alloc, of), "a");
    let yes = key_in(alloc, of, key);
    built::ternary(alloc, test, yes, key_in(alloc, of, key))
}

/// Whether a list has an item of this index, or a map this key.
fn any_key(alloc: Global, of: &Expr, key: &Expr) -> Built
    ensures { IfOk result (λ e. view e ≡ specs.any_key_tree (view of.now) (view key.now)) }
{
    let test = is_list(alloc, of);
    let item = inside(alloc, copy(alloc, of), key);
    built::ternary(alloc, test, item, key_in(alloc, of, key))
}

/// Whether a list has an item of this index. The error for what is no list.
fn list_item(alloc: Global, of: &Expr, key: &Expr) -> Built
    ensures { IfOk result (λ e. view e ≡ specs.found_tree kinds.Int (view of.now) (view key.now)) }
{
    let empty = Ok(build::empty(alloc));
    let list = built::binary(alloc, BinaryOperator::Add, copy(alloc, of), empty);
    inside(alloc, list, key)
}

/// Whether a value that is not null has an item or entry of an index of this kind.
fn found(alloc: Global, kind: ValueKind, of: &Expr, key: &Expr) -> Built
    ensures { IfOk result (λ e. view e ≡ specs.found_tree kind (view of.now) (view key.now)) }
{
    match kind {
        ValueKind::String => map_key(alloc, of, key),
        ValueKind::Int => list_item(alloc, of, key),
        _ => any_key(alloc, of, key),
    }
}

/// Whether an expression is an int literal.
fn is_int_literal(e: &Expr) -> bool
    ensures { result ≡ specs.is_int_literal (view e.now) }
{
    matches!(e, Expr::Literal(Literal::Int(_)))
}

/// Whether null has an item or entry: false, or the error for an index that is no int and no text.
fn no_key(alloc: Global, key: &Expr) -> Built
    ensures { IfOk result (λ e. view e ≡ specs.no_key_tree (view key.now)) }
{
    if is_int_literal(key) {
        return Ok(Expr::Literal(Literal::Bool(false)));
    }
    let text = built::call(alloc, "string", copy(alloc, key));
    let again = built::call(alloc, "string", copy(alloc, key));
    built::binary(alloc, BinaryOperator::NotEqual, text, again)
}

/// Whether a value has an item or entry of an index of this kind. Null has none.
fn unless_null(alloc: Global, index: ValueKind, of: &Expr, key: &Expr) -> Built
    ensures { IfOk result (λ e. view e ≡ specs.present_key_tree kinds.Dyn index (view of.now) (view key.now)) }
{
    let is_null = null_test(alloc, BinaryOperator::Equal, of);
    let none = no_key(alloc, key);
    built::ternary(alloc, is_null, none, found(alloc, index, of, key))
}

/// Whether a value of one kind has an item or entry of an index of another.
fn present_key(alloc: Global, kind: ValueKind, index: ValueKind, of: &Expr, key: &Expr) -> Built
    ensures { IfOk result (λ e. view e ≡ specs.present_key_tree kind index (view of.now) (view key.now)) }
{
    match kind {
        ValueKind::Map => key_in(alloc, of, key),
        ValueKind::List => inside(alloc, copy(alloc, of), key),
        _ => unless_null(alloc, index, of, key),
    }
}

// ---- the item or entry

/// The list of an item or entry, or the empty list.
fn key_list(alloc: Global, kind: ValueKind, index: ValueKind, of: Expr, key: Expr) -> Built
    ensures { IfOk result (λ e. view e ≡ specs.key_list_tree kind index (view of) (view key)) }
{
    let guard = present_key(alloc, kind, index, &of, &key);
    built::guarded(alloc, guard, build::index(alloc, of, key))
}

/// The same, of the second name that the translation binds.
fn second_list(alloc: Global, kind: ValueKind, index: ValueKind, of: Expr) -> Built
    ensures { IfOk result (λ e. view e ≡ specs.key_list_tree kind index (view of) second) }
{
    let (of, key) = both(Ok(of), build::name(alloc, SECOND))?;
    key_list(alloc, kind, index, of, key)
}

/// The same, of an index that is written once unless it is simple.
fn key_once(alloc: Global, kind: ValueKind, index: ValueKind, of: Expr, key: Expr) -> Built
    ensures { IfOk result (λ e. view e ≡ specs.key_once_tree kind index (view of) (view key)) }
{
    if build::is_simple(&key) {
        return key_list(alloc, kind, index, of, key);
    }
    let items = second_list(alloc, kind, index, of);
    built::bound_to(alloc, SECOND, Ok(key), items)
}

/// The same, for the value that the translation's name denotes.
fn held_key(alloc: Global, kind: ValueKind, index: ValueKind, key: Expr) -> Built
    ensures { IfOk result (λ e. view e ≡ specs.key_once_tree kind index forms.held (view key)) }
{
    let (held, key) = both(build::held(alloc), Ok(key))?;
    key_once(alloc, kind, index, held, key)
}

/// The list of an item or entry of a value that is written once unless it is simple.
fn both_once(alloc: Global, kind: ValueKind, index: ValueKind, of: Expr, key: Expr) -> Built
    ensures { IfOk result (λ e. view e ≡ once (view of) (λ x. specs.key_once_tree kind index x (view key))) }
{
    if build::is_simple(&of) {
        return key_once(alloc, kind, index, of, key);
    }
    built::bound(alloc, Ok(of), held_key(alloc, kind, index, key))
}

/// The optional item or entry of a value.
fn optional_key(
    alloc: Global,
    kind: ValueKind,
    index: ValueKind,
    of: Expr,
    key: Expr,
) -> Result<Carried, AllocError>
    ensures { IfOk result (λ c. carried_view c ≡ specs.key_carried (plain kind (view of)) index (view key)) }
{
    if build::is_simple(&of) && build::is_simple(&key) {
        let guard = present_key(alloc, kind, index, &of, &key);
        let (guard, value) = both(guard, build::index(alloc, of, key))?;
        return Ok(Carried::Guarded(ValueKind::Dyn, guard, value));
    }
    let list = both_once(alloc, kind, index, of, key);
    Ok(Carried::Listed(ValueKind::Dyn, list?))
}

/// The item or entry of the value of an optional value.
fn key_of_list(
    alloc: Global,
    kind: ValueKind,
    index: ValueKind,
    list: Built,
    key: Expr,
) -> Result<Carried, AllocError>
    ensures { IfOk result (λ c. (l : Expr) × (list ≡ Ok l) × (carried_view c ≡ specs.key_of_list kind index (view l) (view key))) }
{
    let items = built::flat(alloc, HELD, list, held_key(alloc, kind, index, key));
    Ok(Carried::Listed(ValueKind::Dyn, items?))
}

/// The optional item or entry of an operand, for an index of this kind.
pub(crate) fn key(
    alloc: Global,
    of: Carried,
    index: ValueKind,
    key: Expr,
) -> Result<Carried, AllocError>
    ensures { IfOk result (λ c. carried_view c ≡ specs.key_carried (carried_view of) index (view key)) }
{
    match of {
        Carried::Plain(kind, tree) => optional_key(alloc, kind, index, tree, key),
        Carried::Guarded(kind, guard, value) => {
            let list = build::guarded(alloc, guard, value);
            key_of_list(alloc, kind, index, list, key)
        }
        Carried::Listed(kind, list) => key_of_list(alloc, kind, index, Ok(list), key),
    }
}
