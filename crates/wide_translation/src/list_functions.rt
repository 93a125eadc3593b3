//! Functions and methods of lists.

ghost use Rattle.std.specs.Prelude.{◌≡◌, IfOk};
ghost use Rattle.cel_reader.specs.Tree as node;
ghost use Rattle.cel_reader.specs.Tree.{view};
ghost use Rattle.cel_reader.specs.declared.operator.BinaryOperator.TheVariants as operation;
ghost use Rattle.wide_kinds.specs.declared.kind.ValueKind.TheVariants as kind;
ghost use Rattle.wide_translation.specs.Built.{FormOf, FormOfTwo};
ghost use Rattle.wide_translation.specs.Carried.{listed, plain, taken};
ghost use Rattle.wide_translation.specs.Declarations.{ReturnsCarried, carried_view};
ghost use Rattle.wide_translation.specs.Forms as forms;
ghost use Rattle.wide_translation.specs.Layers as layers;
ghost use Rattle.wide_translation.specs.Lists as specs;
ghost use Rattle.wide_translation.specs.Names as names;
ghost use Rattle.wide_translation.specs.Parts.{on_plain};

use crate::build;
use crate::built::{self, Built};
use crate::carried::{Carried, value_of};
use crate::names::{HELD, INDEX, SECOND};
use crate::translation_error::TranslationError;
use cel_macros::Macro;
use cel_reader::{BinaryOperator, Expr, Literal};
use std::alloc::Global;
use wide_kinds::ValueKind;
use wide_meaning::Qualified;

/// An expression with a name for a list.
pub(crate) fn list_bound(alloc: Global, name: &str, of: Built, body: Built) -> Built
    ensures { FormOfTwo (specs.list_let name.now) of body result }
{
    let list = built::binary(alloc, BinaryOperator::Add, of, Ok(build::empty(alloc)));
    built::bound_to(alloc, name, list, body)
}

// ---- items

/// The list of an item, or the empty list if the list that the translation's name denotes is empty.
fn unless_empty(alloc: Global, item: Built) -> Built
    ensures { FormOf layers.unless_empty_tree item result }
{
    let empty = build::empty(alloc);
    let is_empty = built::binary(alloc, BinaryOperator::Equal, build::held(alloc), Ok(empty));
    let items = built::one(alloc, item);
    built::ternary(alloc, is_empty, Ok(build::empty(alloc)), items)
}

/// The first item of the list that the translation's name denotes.
fn start(alloc: Global) -> Built
    ensures { IfOk result (λ e. view e ≡ forms.first_tree forms.held) }
{
    built::first(alloc, build::held(alloc))
}

/// The last place in the list that the translation's name denotes.
pub(crate) fn last_place(alloc: Global) -> Built
    ensures { IfOk result (λ e. view e ≡ layers.last_place_tree) }
{
    let size = built::call(alloc, "size", build::held(alloc));
    let one = Expr::Literal(Literal::Int(1));
    built::binary(alloc, BinaryOperator::Subtract, size, Ok(one))
}

/// The last item of the list that the translation's name denotes.
fn end(alloc: Global) -> Built
    ensures { IfOk result (λ e. view e ≡ specs.end_tree forms.held) }
{
    built::index(alloc, build::held(alloc), last_place(alloc))
}

/// The list of the first item, or the empty list.
fn first_list(alloc: Global, of: Expr) -> Built
    ensures { IfOk result (λ e. view e ≡ specs.first_list_tree (view of)) }
{
    list_bound(alloc, HELD, Ok(of), unless_empty(alloc, start(alloc)))
}

/// The list of the last item, or the empty list.
fn last_list(alloc: Global, of: Expr) -> Built
    ensures { IfOk result (λ e. view e ≡ specs.last_list_tree (view of)) }
{
    list_bound(alloc, HELD, Ok(of), unless_empty(alloc, end(alloc)))
}

/// The first item of a list.
pub(crate) fn first(alloc: Global, of: Carried) -> Result<Carried, TranslationError>
    ensures { ReturnsCarried (on_plain (carried_view of) (λ k a. taken (listed kind.Dyn (specs.first_list_tree a)))) result }
{
    let Some((_, list)) = value_of(of) else {
        return Err(TranslationError::OptionalValue);
    };
    let tree = first_list(alloc, list)?;
    Ok(Carried::Listed(ValueKind::Dyn, tree))
}

/// The last item of a list.
pub(crate) fn last(alloc: Global, of: Carried) -> Result<Carried, TranslationError>
    ensures { ReturnsCarried (on_plain (carried_view of) (λ k a. taken (listed kind.Dyn (specs.last_list_tree a)))) result }
{
    let Some((_, list)) = value_of(of) else {
        return Err(TranslationError::OptionalValue);
    };
    let tree = last_list(alloc, list)?;
    Ok(Carried::Listed(ValueKind::Dyn, tree))
}

/// Whether two items are in this order.
fn ordered(alloc: Global, operator: BinaryOperator) -> Built
    ensures { IfOk result (λ e. view e ≡ node.binary operator specs.each specs.second) }
{
    let left = build::name(alloc, INDEX);
    built::binary(alloc, operator, left, build::name(alloc, SECOND))
}

/// Whether an item is in this order with each item of the list that the translation's name denotes.
fn before_each(alloc: Global, operator: BinaryOperator) -> Built
    ensures { IfOk result (λ e. view e ≡ layers.before_each_tree operator) }
{
    let held = build::held(alloc);
    built::fold(alloc, Macro::All, SECOND, held, ordered(alloc, operator))
}

/// The first of the items that are in this order with each item.
fn first_before_each(alloc: Global, operator: BinaryOperator) -> Built
    ensures { IfOk result (λ e. view e ≡ layers.first_before_each_tree operator) }
{
    let held = build::held(alloc);
    let test = before_each(alloc, operator);
    built::first(alloc, built::fold(alloc, Macro::Filter, INDEX, held, test))
}

/// The first item of a list that is in this order with each item.
pub(crate) fn extreme(
    alloc: Global,
    operator: BinaryOperator,
    of: Carried,
) -> Result<Carried, TranslationError>
    ensures { ReturnsCarried (on_plain (carried_view of) (λ k a. taken (plain kind.Dyn (specs.extreme_tree operator a)))) result }
{
    let Some((_, list)) = value_of(of) else {
        return Err(TranslationError::OptionalValue);
    };
    let tree = list_bound(alloc, HELD, Ok(list), first_before_each(alloc, operator));
    Ok(Carried::Plain(ValueKind::Dyn, tree?))
}

// ---- sets

/// Whether each item of a list, or one of them, is in another list.
fn items_in(alloc: Global, quantifier: Macro, of: &str, other: &str) -> Built
    ensures { IfOk result (λ e. view e ≡ forms.macro_tree quantifier names.index_name (node.name of.now) (node.binary operation.In specs.each (node.name other.now))) }
{
    let item = build::name(alloc, INDEX);
    let test = built::binary(alloc, BinaryOperator::In, item, build::name(alloc, other));
    built::fold(alloc, quantifier, INDEX, build::name(alloc, of), test)
}

/// Whether each of the two lists that the translation binds has the items of the other.
fn equivalent(alloc: Global) -> Built
    ensures { IfOk result (λ e. view e ≡ specs.equivalent_tree forms.held specs.second) }
{
    let left = items_in(alloc, Macro::All, HELD, SECOND);
    let right = items_in(alloc, Macro::All, SECOND, HELD);
    built::binary(alloc, BinaryOperator::And, left, right)
}

/// The test of the two lists that the translation binds.
fn sets_test(alloc: Global, found: Qualified) -> Built
    ensures { IfOk result (λ e. view e ≡ layers.sets_test found) }
{
    match found {
        Qualified::SetsContains => items_in(alloc, Macro::All, SECOND, HELD),
        Qualified::SetsIntersects => items_in(alloc, Macro::Exists, HELD, SECOND),
        _ => equivalent(alloc),
    }
}

/// A test of two lists, which are both evaluated first.
fn sets_tree(alloc: Global, found: Qualified, first: Expr, second: Expr) -> Built
    ensures { IfOk result (λ e. view e ≡ specs.sets_tree (layers.sets_test found) (view first) (view second)) }
{
    let inner = list_bound(alloc, SECOND, Ok(second), sets_test(alloc, found));
    list_bound(alloc, HELD, Ok(first), inner)
}

/// Whether a function tests two sets.
pub(crate) fn is_of_sets(found: Qualified) -> bool
    ensures { result ≡ layers.is_of_sets found }
{
    match found {
        Qualified::SetsContains | Qualified::SetsIntersects | Qualified::SetsEquivalent => true,
        _ => false,
    }
}

/// A test of two sets.
pub(crate) fn sets(
    alloc: Global,
    found: Qualified,
    first: Expr,
    second: Carried,
) -> Result<Carried, TranslationError>
    ensures { ReturnsCarried (on_plain (carried_view second) (λ k b. taken (plain kind.Bool (specs.sets_tree (layers.sets_test found) (view first) b)))) result }
{
    let Some((_, other)) = value_of(second) else {
        drop(first);
        return Err(TranslationError::OptionalValue);
    };
    let tree = sets_tree(alloc, found, first, other)?;
    Ok(Carried::Plain(ValueKind::Bool, tree))
}
