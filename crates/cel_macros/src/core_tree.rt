//! Expressions with their macros expanded.

use crate::callee::Callee;
use crate::macros::Macro;
use cel_reader::{BinaryOperator, Literal, UnaryOperator};

/// An expression whose macros are expanded. Each fold records its macro.
#[derive(Debug, Drop)]
pub enum Core {
    Literal(Literal),
    /// The value of a root or of an iteration name.
    Name(String),
    /// The value of the variable of this name, written `variables.name`.
    Variable(String),
    /// The field of this name.
    Select(Box<Core>, String),
    /// Whether a map has the field of this name, written `has(e.f)`.
    Has(Box<Core>, String),
    /// The item or entry at an index.
    Index(Box<Core>, Box<Core>),
    Call(Callee, Vec<Core>),
    /// A call of a method.
    Method(Box<Core>, Callee, Vec<Core>),
    Unary(UnaryOperator, Box<Core>),
    Binary(BinaryOperator, Box<Core>, Box<Core>),
    /// A condition, the value if it is true, and the value if it is false.
    Ternary(Box<Core>, Box<Core>, Box<Core>),
    List(Vec<Core>),
    /// Keys and their values.
    Map(Vec<(Core, Core)>),
    /// A macro with its iteration name, its range, and its predicate or transform.
    Fold(Macro, String, Box<Core>, Box<Core>),
    /// `map` of three arguments: its iteration name, its range, its predicate and its transform.
    FoldMap(String, Box<Core>, Box<Core>, Box<Core>),
}
