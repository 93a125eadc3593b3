//! Literals.

/// A literal of CEL (cel-spec, LITERAL).
#[derive(Debug, Drop, PartialEq, Eq)]
pub enum Literal {
    Int(i64),
    Text(String),
    Bool(bool),
    Null,
}
