//! Whether a field or an item is there, and fields and items of what may not have them.

ghost use Rattle.std.specs.Prelude.{◌≡◌, ℕ, IfOk, pos};
ghost use Rattle.cel_reader.specs.Tree as node;
ghost use Rattle.cel_reader.specs.Tree.{view};
ghost use Rattle.cel_reader.specs.declared.operator.BinaryOperator.TheVariants as operation;
ghost use Rattle.wide_translation.specs.Forms as forms;
ghost use Rattle.wide_translation.specs.Layers.{list_size_tree};
ghost use Rattle.wide_translation.specs.Translated as specs;

use crate::build;
use crate::built::{self, Built};
use crate::copying::copy;
use crate::names::is_selector;
use cel_reader::{BinaryOperator, Expr, Literal};
use std::alloc::Global;
use wide_kinds::ValueKind;

/// A field, as an index if its name may not follow a dot.
pub(crate) fn access(alloc: Global, of: Expr, field: &str) -> Built
    ensures { IfOk result (λ e. view e ≡ forms.access_tree (view of) field.now) }
{
    if is_selector(field) {
        return build::select(alloc, of, field);
    }
    built::index(alloc, Ok(of), build::text(alloc, field))
}

/// Whether a field, whose name may not follow a dot, is among the keys of an expression.
fn key_in(alloc: Global, field: &str, of: &Expr) -> Built
    ensures { IfOk result (λ e. view e ≡ node.binary forms.membership (node.literal (node.text field.now)) (view of.now)) }
{
    let key = build::text(alloc, field);
    built::binary(alloc, BinaryOperator::In, key, copy(alloc, of))
}

/// Whether an expression, which is not null, has a field.
fn has_any(alloc: Global, of: &Expr, field: &str) -> Built
    ensures { IfOk result (λ e. view e ≡ forms.has_any_tree (view of.now) field.now) }
{
    if is_selector(field) {
        return built::has(alloc, copy(alloc, of), field);
    }
    // Of what is no map this is the error; what it is otherwise does not matter.
    let test = built::has(alloc, copy(alloc, of), "a");
    let yes = key_in(alloc, field, of);
    built::ternary(alloc, test, yes, key_in(alloc, field, of))
}

/// A comparison of an expression with null.
pub(crate) fn null_test(alloc: Global, operator: BinaryOperator, of: &Expr) -> Built
    ensures { IfOk result (λ e. view e ≡ node.binary operator (view of.now) (node.literal node.null)) }
{
    let null = Expr::Literal(Literal::Null);
    built::binary(alloc, operator, copy(alloc, of), Ok(null))
}

/// Whether an expression has a field. Null has none.
pub(crate) fn present(alloc: Global, of: &Expr, field: &str) -> Built
    ensures { IfOk result (λ e. view e ≡ forms.present_tree (view of.now) field.now) }
{
    let is_value = null_test(alloc, BinaryOperator::NotEqual, of);
    let has_field = has_any(alloc, of, field);
    built::binary(alloc, BinaryOperator::And, is_value, has_field)
}

/// Whether a value of this kind has a field.
pub(crate) fn present_of(alloc: Global, kind: ValueKind, of: &Expr, field: &str) -> Built
    ensures { IfOk result (λ e. view e ≡ specs.present_of kind (view of.now) field.now) }
{
    match kind {
        ValueKind::Map => has_any(alloc, of, field),
        _ => present(alloc, of, field),
    }
}

/// The list of a field of the name that the translation binds, or the empty list.
pub(crate) fn field_list(alloc: Global, field: &str) -> Built
    ensures { IfOk result (λ e. view e ≡ forms.field_list_tree forms.held field.now) }
{
    let of = build::held(alloc)?;
    let guard = present(alloc, &of, field);
    built::guarded(alloc, guard, access(alloc, of, field))
}

/// An int literal.
fn int(n: i64) -> Expr
    ensures { view result ≡ node.literal (node.int n) }
{
    Expr::Literal(Literal::Int(n))
}

/// The number of items of a list. The error for what is no list.
fn list_size(alloc: Global, of: &Expr) -> Built
    ensures { IfOk result (λ e. view e ≡ list_size_tree (view of.now)) }
{
    let empty = build::empty(alloc);
    let list = built::binary(alloc, BinaryOperator::Add, copy(alloc, of), Ok(empty));
    built::call(alloc, "size", list)
}

/// Whether an index is below the number of items of a list.
fn is_below(alloc: Global, position: i64, of: &Expr) -> Built
    ensures { IfOk result (λ e. view e ≡ node.binary operation.Less (node.literal (node.int position)) (list_size_tree (view of.now))) }
{
    let size = list_size(alloc, of);
    built::binary(alloc, BinaryOperator::Less, Ok(int(position)), size)
}

/// Whether a list has an item of this index. Null has none.
fn present_item(alloc: Global, of: &Expr, position: i64) -> Built
    ensures { IfOk result (λ e. (n : ℕ) → position ≡ pos n → view e ≡ forms.present_item_tree (view of.now) n) }
{
    let is_null = null_test(alloc, BinaryOperator::Equal, of);
    let no = Expr::Literal(Literal::Bool(false));
    built::ternary(alloc, is_null, Ok(no), is_below(alloc, position, of))
}

/// Whether a value of this kind has an item of this index.
pub(crate) fn present_item_of(alloc: Global, kind: ValueKind, of: &Expr, position: i64) -> Built
    ensures { IfOk result (λ e. (n : ℕ) → position ≡ pos n → view e ≡ specs.present_item_of kind (view of.now) n) }
{
    match kind {
        ValueKind::List => is_below(alloc, position, of),
        _ => present_item(alloc, of, position),
    }
}

/// The item of this index.
pub(crate) fn item(alloc: Global, of: Expr, position: i64) -> Built
    ensures { IfOk result (λ e. (n : ℕ) → position ≡ pos n → view e ≡ forms.item_tree (view of) n) }
{
    build::index(alloc, of, int(position))
}

/// The list of an item of the name that the translation binds, or the empty list.
pub(crate) fn item_list(alloc: Global, position: i64) -> Built
    ensures { IfOk result (λ e. (n : ℕ) → position ≡ pos n → view e ≡ forms.item_list_tree forms.held n) }
{
    let of = build::held(alloc)?;
    let guard = present_item(alloc, &of, position);
    built::guarded(alloc, guard, item(alloc, of, position))
}
