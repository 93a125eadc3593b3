//! The outline of a value.

/// The outline of a value: its kind, the value of a simple one, and the number of items or entries of a list or map.
#[derive(Clone, Copy, Debug, PartialEq, Eq)]
pub enum Shape<'a> {
    /// The error, which is not a value.
    Error,
    Null,
    Bool(bool),
    Int(i64),
    Text(&'a str),
    /// The number of items.
    List(u64),
    /// The number of entries.
    Map(u64),
}
