//! The precedence of binary operators.

/// The levels of binary operators, from the loosest to the tightest.
#[derive(Clone, Copy, PartialEq, Eq)]
pub enum Level {
    Or,
    And,
    Relation,
    Sum,
    Product,
}
