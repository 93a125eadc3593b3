//! An expression with a name.

/// A match condition or a variable.
#[derive(Debug, Drop)]
pub struct NamedExpression {
    /// Its name, unique in its list.
    pub name: String,
    /// Its CEL expression.
    pub expression: String,
}
