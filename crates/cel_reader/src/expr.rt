//! Expressions.

use crate::literal::Literal;
use crate::operator::{BinaryOperator, UnaryOperator};

/// An expression of CEL. Parentheses leave no node.
#[derive(Debug, Drop)]
pub enum Expr {
    Literal(Literal),
    Name(String),
    /// The field of this name.
    Select(Box<Expr>, String),
    /// The item or entry at an index.
    Index(Box<Expr>, Box<Expr>),
    Call(String, Vec<Expr>),
    /// A call of the method of this name.
    Method(Box<Expr>, String, Vec<Expr>),
    Unary(UnaryOperator, Box<Expr>),
    Binary(BinaryOperator, Box<Expr>, Box<Expr>),
    /// A condition, the value if it is true, and the value if it is false.
    Ternary(Box<Expr>, Box<Expr>, Box<Expr>),
    List(Vec<Expr>),
    /// Keys and their values.
    Map(Vec<(Expr, Expr)>),
}
