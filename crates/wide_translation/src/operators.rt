//! Operators and conditionals.

ghost use Rattle.std.specs.Prelude.{◌≡◌, IfOk, true};
ghost use Rattle.cel_reader.specs.Tree as node;
ghost use Rattle.cel_reader.specs.Tree.{view};
ghost use Rattle.wide_kinds.specs.Kinds as kinds;
ghost use Rattle.wide_kinds.specs.declared.kind.ValueKind.TheVariants as kind;
ghost use Rattle.wide_reader.specs.Tree as wide;
ghost use Rattle.wide_translation.specs.Carried.{OptionalValue, UnsignedInt, listed, plain, refused, taken};
ghost use Rattle.wide_translation.specs.Declarations.{ReturnsCarried, carried_view};
ghost use Rattle.wide_translation.specs.Forms as forms;
ghost use Rattle.wide_translation.specs.Layers as layers;
ghost use Rattle.wide_translation.specs.Translated as specs;

use crate::carried::{Carried, value_of};
use crate::translation_error::TranslationError;
use crate::{build, built};
use cel_reader::{BinaryOperator, Expr, Literal, UnaryOperator};
use std::alloc::{AllocError, Global};
use wide_kinds::{ValueKind, binary_kind, joined_kind, unary_kind};

/// An unsigned int as an operand of a comparison: an int, if it fits 63 bits.
pub(crate) fn unsigned(n: u64) -> Result<Carried, TranslationError>
    ensures { ReturnsCarried (specs.operand true (wide.uint n) (refused UnsignedInt)) result }
{
    if n < 9_223_372_036_854_775_808 {
        let literal = Expr::Literal(Literal::Int(n as i64));
        return Ok(Carried::Plain(ValueKind::Int, literal));
    }
    Err(TranslationError::UnsignedInt)
}

/// Whether a binary operator compares.
pub(crate) fn compares(operator: BinaryOperator) -> bool
    ensures { result ≡ specs.compares operator }
{
    matches!(
        operator,
        BinaryOperator::Equal
            | BinaryOperator::NotEqual
            | BinaryOperator::Less
            | BinaryOperator::LessEqual
            | BinaryOperator::Greater
            | BinaryOperator::GreaterEqual
    )
}

/// A unary operator.
pub(crate) fn unary(
    alloc: Global,
    operator: UnaryOperator,
    operand: Carried,
) -> Result<Carried, TranslationError>
    ensures { ReturnsCarried (specs.on_plain (carried_view operand) (λ k a. taken (plain (kinds.unary_kind operator) (node.unary operator a)))) result }
{
    let Some((_, of)) = value_of(operand) else {
        return Err(TranslationError::OptionalValue);
    };
    let tree = build::unary(alloc, operator, of)?;
    Ok(Carried::Plain(unary_kind(operator), tree))
}

/// A comparison of two expressions.
fn compared(
    alloc: Global,
    operator: BinaryOperator,
    left: Expr,
    right: Expr,
) -> Result<Carried, AllocError>
    ensures { IfOk result (λ c. carried_view c ≡ plain kind.Bool (node.binary operator (view left) (view right))) }
{
    let tree = build::binary(alloc, operator, left, right)?;
    Ok(Carried::Plain(ValueKind::Bool, tree))
}

/// A comparison of a list with that of a value if its guard holds.
fn compared_guarded(
    alloc: Global,
    operator: BinaryOperator,
    left: Expr,
    right: (Expr, Expr),
) -> Result<Carried, AllocError>
    ensures { IfOk result (λ c. carried_view c ≡ plain kind.Bool (node.binary operator (view left) (forms.guarded_tree (view right.0) (view right.1)))) }
{
    let second = build::guarded(alloc, right.0, right.1);
    let tree = built::binary(alloc, operator, Ok(left), second)?;
    Ok(Carried::Plain(ValueKind::Bool, tree))
}

/// Equality of a list with that of an optional value.
fn list_equality(
    alloc: Global,
    operator: BinaryOperator,
    left: Expr,
    right: Carried,
) -> Result<Carried, TranslationError>
    ensures { ReturnsCarried (specs.on_list OptionalValue (carried_view right) (λ k m. taken (plain kind.Bool (node.binary operator (view left) m)))) result }
{
    match right {
        Carried::Plain(_, tree) => {
            drop(tree);
            drop(left);
            Err(TranslationError::OptionalValue)
        }
        Carried::Guarded(_, guard, value) => {
            Ok(compared_guarded(alloc, operator, left, (guard, value))?)
        }
        Carried::Listed(_, second) => Ok(compared(alloc, operator, left, second)?),
    }
}

/// Equality of a value if its guard holds, as a list, with the list of an optional value.
fn guarded_equality(
    alloc: Global,
    operator: BinaryOperator,
    left: (Expr, Expr),
    right: Carried,
) -> Result<Carried, TranslationError>
    ensures { ReturnsCarried (specs.on_list OptionalValue (carried_view right) (λ k m. taken (plain kind.Bool (node.binary operator (forms.guarded_tree (view left.0) (view left.1)) m)))) result }
{
    match build::guarded(alloc, left.0, left.1) {
        Ok(first) => list_equality(alloc, operator, first, right),
        Err(failed) => {
            drop(right);
            Err(failed.into())
        }
    }
}

/// Equality of two values, or of two optional values.
fn equality(
    alloc: Global,
    operator: BinaryOperator,
    left: Carried,
    right: Carried,
) -> Result<Carried, TranslationError>
    ensures { ReturnsCarried (specs.equality operator (carried_view left) (carried_view right)) result }
{
    match left {
        Carried::Plain(_, first) => {
            let Some((_, second)) = value_of(right) else {
                drop(first);
                return Err(TranslationError::OptionalValue);
            };
            Ok(compared(alloc, operator, first, second)?)
        }
        Carried::Guarded(_, guard, value) => {
            guarded_equality(alloc, operator, (guard, value), right)
        }
        Carried::Listed(_, first) => list_equality(alloc, operator, first, right),
    }
}

/// An operator on two values. Nothing is in an empty list literal.
fn on_values(
    alloc: Global,
    is_empty: bool,
    operator: BinaryOperator,
    left: (ValueKind, Expr),
    right: (ValueKind, Expr),
) -> Result<Carried, AllocError>
    ensures { IfOk result (λ c. specs.plain_binary is_empty operator left.0 right.0 (view left.1) (view right.1) ≡ taken (carried_view c)) }
{
    if is_empty && operator == BinaryOperator::In {
        drop(left);
        drop(right);
        return Ok(Carried::Plain(ValueKind::Bool, Expr::Literal(Literal::Bool(false))));
    }
    let kind = binary_kind(operator, left.0, right.0);
    let tree = build::binary(alloc, operator, left.1, right.1)?;
    Ok(Carried::Plain(kind, tree))
}

/// An operator, not an equality, on two operands.
fn on_operands(
    alloc: Global,
    is_empty: bool,
    operator: BinaryOperator,
    left: Carried,
    right: Carried,
) -> Result<Carried, TranslationError>
    ensures { ReturnsCarried (specs.on_plain (carried_view left) (λ k a. specs.on_plain (carried_view right) (λ j b. specs.plain_binary is_empty operator k j a b))) result }
{
    let Some(first) = value_of(left) else {
        return Err(TranslationError::OptionalValue);
    };
    let Some(second) = value_of(right) else {
        drop(first);
        return Err(TranslationError::OptionalValue);
    };
    Ok(on_values(alloc, is_empty, operator, first, second)?)
}

/// Whether a binary operator is an equality.
fn is_equality(operator: BinaryOperator) -> bool
    ensures { result ≡ layers.is_equality operator }
{
    matches!(operator, BinaryOperator::Equal | BinaryOperator::NotEqual)
}

/// A binary operator. Whether its right operand is written `[]` is the first argument.
#[tactic(auto, using(crate::proofs::Arms::equality_arm, crate::proofs::Arms::operands_arm))]
pub(crate) fn binary(
    alloc: Global,
    is_empty: bool,
    operator: BinaryOperator,
    left: Carried,
    right: Carried,
) -> Result<Carried, TranslationError>
    ensures { ReturnsCarried (specs.binary_carried is_empty operator (carried_view left) (carried_view right)) result }
{
    if is_equality(operator) {
        return equality(alloc, operator, left, right);
    }
    on_operands(alloc, is_empty, operator, left, right)
}

/// A conditional whose branches are optional values, the first of them as a list.
fn list_ternary(
    alloc: Global,
    condition: Expr,
    yes: (ValueKind, Expr),
    no: Carried,
) -> Result<Carried, TranslationError>
    ensures { ReturnsCarried (specs.on_list OptionalValue (carried_view no) (λ j m. taken (listed (kinds.joined_kind yes.0 j) (node.ternary (view condition) (view yes.1) m)))) result }
{
    let (kind, first) = yes;
    match no {
        Carried::Plain(_, tree) => {
            drop(tree);
            drop(condition);
            drop(first);
            Err(TranslationError::OptionalValue)
        }
        Carried::Guarded(other, guard, value) => {
            let second = build::guarded(alloc, guard, value);
            let tree = built::ternary(alloc, Ok(condition), Ok(first), second)?;
            Ok(Carried::Listed(joined_kind(kind, other), tree))
        }
        Carried::Listed(other, second) => {
            let tree = build::ternary(alloc, condition, first, second)?;
            Ok(Carried::Listed(joined_kind(kind, other), tree))
        }
    }
}

/// A conditional whose branches are optional values, the first of them with a guard.
fn guarded_ternary(
    alloc: Global,
    condition: Expr,
    yes: (ValueKind, Expr, Expr),
    no: Carried,
) -> Result<Carried, TranslationError>
    ensures { ReturnsCarried (specs.on_list OptionalValue (carried_view no) (λ j m. taken (listed (kinds.joined_kind yes.0 j) (node.ternary (view condition) (forms.guarded_tree (view yes.1) (view yes.2)) m)))) result }
{
    let (kind, guard, value) = yes;
    match build::guarded(alloc, guard, value) {
        Ok(first) => list_ternary(alloc, condition, (kind, first), no),
        Err(failed) => {
            drop(condition);
            drop(no);
            Err(failed.into())
        }
    }
}

/// A conditional. Its branches are both values or both optional values.
pub(crate) fn ternary(
    alloc: Global,
    condition: Expr,
    yes: Carried,
    no: Carried,
) -> Result<Carried, TranslationError>
    ensures { ReturnsCarried (specs.ternary_carried (view condition) (carried_view yes) (carried_view no)) result }
{
    match yes {
        Carried::Plain(kind, first) => {
            let Some((other, second)) = value_of(no) else {
                drop(condition);
                drop(first);
                return Err(TranslationError::OptionalValue);
            };
            let tree = build::ternary(alloc, condition, first, second)?;
            Ok(Carried::Plain(joined_kind(kind, other), tree))
        }
        Carried::Guarded(kind, guard, value) => {
            guarded_ternary(alloc, condition, (kind, guard, value), no)
        }
        Carried::Listed(kind, first) => list_ternary(alloc, condition, (kind, first), no),
    }
}
