//! Builds expressions from their parts.

ghost use Rattle.std.specs.Prelude.{◌≡◌, IfOk, string_bytes};
ghost use Rattle.std.specs.Prelude as list;
ghost use Rattle.cel_reader.specs.Tree as node;
ghost use Rattle.cel_reader.specs.Tree.{view, entry_view, trees, literal_view};
ghost use Rattle.cel_reader.specs.Prefixes.{wrapped};

use crate::expr::Expr;
use crate::literal::Literal;
use crate::operator::{BinaryOperator, UnaryOperator};
use std::alloc::{AllocError, Global};

/// Both in boxes.
fn boxed<T: Drop>(alloc: Global, first: T, second: T) -> Result<(Box<T>, Box<T>), AllocError>
    ensures { IfOk result (λ b. (b.0.value ≡ first) × (b.1.value ≡ second)) }
{
    let first = Box::new(alloc, first)?;
    Ok((first, Box::new(alloc, second)?))
}

/// All three in boxes.
fn all_boxed<T: Drop>(
    alloc: Global,
    first: T,
    second: T,
    third: T,
) -> Result<(Box<T>, Box<T>, Box<T>), AllocError>
    ensures { IfOk result (λ b. (b.0.value ≡ first) × (b.1.value ≡ second) × (b.2.value ≡ third)) }
{
    let (first, second) = boxed(alloc, first, second)?;
    Ok((first, second, Box::new(alloc, third)?))
}

/// A literal.
pub fn literal(literal: Literal) -> Expr
    ensures { view result ≡ node.literal (literal_view literal) }
{
    Expr::Literal(literal)
}

/// A name.
pub fn name(name: String) -> Expr
    ensures { view result ≡ node.name (string_bytes name) }
{
    Expr::Name(name)
}

/// A call of a function.
pub fn call(name: String, arguments: Vec<Expr>) -> Expr
    ensures { view result ≡ node.call (string_bytes name) (trees (list.map view arguments.items)) }
{
    Expr::Call(name, arguments)
}

/// A list literal.
pub fn list(items: Vec<Expr>) -> Expr
    ensures { view result ≡ node.list (trees (list.map view items.items)) }
{
    Expr::List(items)
}

/// A map literal.
pub fn map(entries: Vec<(Expr, Expr)>) -> Expr
    ensures { view result ≡ node.map (node.entries (list.map entry_view entries.items)) }
{
    Expr::Map(entries)
}

/// A field of an expression.
pub fn select(alloc: Global, of: Expr, field: String) -> Result<Expr, AllocError>
    ensures { IfOk result (λ e. view e ≡ node.select (view of) (string_bytes field)) }
{
    Ok(Expr::Select(Box::new(alloc, of)?, field))
}

/// An item or entry of an expression.
pub fn index(alloc: Global, of: Expr, at: Expr) -> Result<Expr, AllocError>
    ensures { IfOk result (λ e. view e ≡ node.index (view of) (view at)) }
{
    let (of, at) = boxed(alloc, of, at)?;
    Ok(Expr::Index(of, at))
}

/// A call of a method.
pub fn method(
    alloc: Global,
    of: Expr,
    name: String,
    arguments: Vec<Expr>,
) -> Result<Expr, AllocError>
    ensures { IfOk result (λ e. view e ≡ node.method (view of) (string_bytes name) (trees (list.map view arguments.items))) }
{
    Ok(Expr::Method(Box::new(alloc, of)?, name, arguments))
}

/// An operator before an operand.
pub fn unary(alloc: Global, operator: UnaryOperator, operand: Expr) -> Result<Expr, AllocError>
    ensures { IfOk result (λ e. view e ≡ node.unary operator (view operand)) }
{
    Ok(Expr::Unary(operator, Box::new(alloc, operand)?))
}

/// An operand with `count` of one operator before it.
pub fn prefixed(
    alloc: Global,
    operator: UnaryOperator,
    count: usize,
    operand: Expr,
) -> Result<Expr, AllocError>
    ensures { IfOk result (λ e. view e ≡ wrapped operator count (view operand)) }
{
    let mut tree = operand;
    for _ in 0..count {
        tree = unary(alloc, operator, tree)?;
    }
    Ok(tree)
}

/// An operator between operands.
pub fn binary(
    alloc: Global,
    operator: BinaryOperator,
    left: Expr,
    right: Expr,
) -> Result<Expr, AllocError>
    ensures { IfOk result (λ e. view e ≡ node.binary operator (view left) (view right)) }
{
    let (left, right) = boxed(alloc, left, right)?;
    Ok(Expr::Binary(operator, left, right))
}

/// A conditional.
pub fn ternary(alloc: Global, condition: Expr, yes: Expr, no: Expr) -> Result<Expr, AllocError>
    ensures { IfOk result (λ e. view e ≡ node.ternary (view condition) (view yes) (view no)) }
{
    let (condition, yes, no) = all_boxed(alloc, condition, yes, no)?;
    Ok(Expr::Ternary(condition, yes, no))
}
