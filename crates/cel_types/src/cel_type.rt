//! The types of expressions.

/// A type that the checker distinguishes. (cel-spec, Types)
#[derive(Clone, Copy, Debug, PartialEq, Eq)]
pub enum CelType {
    Bool,
    Int,
    String,
    Null,
    List,
    Map,
    /// A type that is known only at evaluation.
    Dyn,
}
