//! The kinds of literals and of the results of operators.

ghost use Rattle.std.specs.Prelude.{◌≡◌};
ghost use Rattle.cel_reader.specs.Tree.{literal_view};
ghost use Rattle.wide_kinds.specs.Kinds as kinds;

use crate::kind::ValueKind;
use cel_reader::{BinaryOperator, Literal, UnaryOperator};

/// The kind of a literal.
pub fn literal_kind(literal: &Literal) -> ValueKind
    ensures { result ≡ kinds.literal_kind (literal_view literal.now) }
{
    match literal {
        Literal::Int(_) => ValueKind::Int,
        Literal::Text(_) => ValueKind::String,
        Literal::Bool(_) => ValueKind::Bool,
        Literal::Null => ValueKind::Null,
    }
}

/// The kind of a unary operator's result.
pub fn unary_kind(operator: UnaryOperator) -> ValueKind
    ensures { result ≡ kinds.unary_kind operator }
{
    match operator {
        UnaryOperator::Not => ValueKind::Bool,
        UnaryOperator::Negate => ValueKind::Int,
    }
}

/// The kind of a sum with an operand of this kind, if that determines it.
fn addable(kind: ValueKind) -> ValueKind
    ensures { result ≡ kinds.addable kind }
{
    match kind {
        ValueKind::Int => ValueKind::Int,
        ValueKind::String => ValueKind::String,
        ValueKind::List => ValueKind::List,
        _ => ValueKind::Dyn,
    }
}

/// The kind of a sum. A sum has the kind of both operands.
fn sum_kind(left: ValueKind, right: ValueKind) -> ValueKind
    ensures { result ≡ kinds.sum_kind left right }
{
    match left {
        ValueKind::Dyn => addable(right),
        _ => addable(left),
    }
}

/// The kind of a binary operator's result for operands of these kinds.
pub fn binary_kind(operator: BinaryOperator, left: ValueKind, right: ValueKind) -> ValueKind
    ensures { result ≡ kinds.binary_kind operator left right }
{
    match operator {
        BinaryOperator::Add => sum_kind(left, right),
        BinaryOperator::Subtract
        | BinaryOperator::Multiply
        | BinaryOperator::Divide
        | BinaryOperator::Remainder => ValueKind::Int,
        _ => ValueKind::Bool,
    }
}

/// The kind of a value that is of one of these kinds.
pub fn joined_kind(first: ValueKind, second: ValueKind) -> ValueKind
    ensures { result ≡ kinds.joined_kind first second }
{
    match (first, second) {
        (ValueKind::Null, ValueKind::Null) => ValueKind::Null,
        (ValueKind::Bool, ValueKind::Bool) => ValueKind::Bool,
        (ValueKind::Int, ValueKind::Int) => ValueKind::Int,
        (ValueKind::String, ValueKind::String) => ValueKind::String,
        (ValueKind::List, ValueKind::List) => ValueKind::List,
        (ValueKind::Map, ValueKind::Map) => ValueKind::Map,
        _ => ValueKind::Dyn,
    }
}
