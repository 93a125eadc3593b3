//! Kinds.

/// The kind of a value.
#[derive(Clone, Copy, Debug, PartialEq, Eq)]
pub enum ValueKind {
    Null,
    Bool,
    Int,
    String,
    List,
    Map,
    /// A kind that is known only at evaluation.
    Dyn,
}

/// What an expression evaluates to, if it is not the error.
#[derive(Clone, Copy, Debug, PartialEq, Eq)]
pub enum Kind {
    /// A value of this kind.
    Value(ValueKind),
    /// An optional value. If it has a value, it is of this kind.
    Optional(ValueKind),
}
