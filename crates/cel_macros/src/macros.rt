//! Macros over a range.

/// A macro with a range, an iteration name and a predicate or transform (cel-spec, Macros).
#[derive(Clone, Copy, Debug, PartialEq, Eq)]
pub enum Macro {
    /// Whether a predicate holds for all items.
    All,
    /// Whether a predicate holds for an item.
    Exists,
    /// Whether a predicate holds for exactly one item.
    ExistsOne,
    /// The items for which a predicate holds.
    Filter,
    /// The transform of each item.
    Map,
}
