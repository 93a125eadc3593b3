//! The content of a cell.

use value_backings::Part;

/// A simple value, or the location of a value's parts.
#[derive(Clone, Copy, Debug, PartialEq, Eq)]
pub enum Content {
    Null,
    Bool(bool),
    Int(i64),
    Text(Part),
    /// The backing, and the number of its first items that are the list's.
    List(u32, u32),
    /// The place of the first key, the backing, and the number of entries. The values are the first
    /// items of the backing.
    Map(u32, u32, u32),
}
