//! Entries of map literals.

use cel_reader::Expr;

/// An entry of a map literal.
#[derive(Debug, Drop)]
pub(crate) enum EntryPart {
    /// A key and its value.
    Always(Expr, Expr),
    /// A key, a guard that tells whether there is an entry, and the value if there is one.
    Optional(String, Expr, Expr),
}
