//! The numbers of the helpers that code calls, and of kinds of values.

/// The kind of a value.
pub const KIND: i32 = 1;

/// An int as a word.
pub const INT_OF: i32 = 2;

/// The int of a word, read as signed.
pub const INT_NEW: i32 = 3;

/// The text in a range of constants.
pub const TEXT_CONST: i32 = 4;

/// The value of a map at a key in the constants.
pub const FIELD: i32 = 5;

/// Whether a map has a key in the constants.
pub const HAS: i32 = 6;

/// An item of a list at an int, or the value of a map at a text.
pub const INDEX: i32 = 7;

/// The number of code points, items or entries, as a value.
pub const SIZE: i32 = 8;

/// Whether two values are equal.
pub const EQUAL: i32 = 9;

/// Whether the first of two values is less than the second.
pub const LESS: i32 = 10;

/// Concatenates two texts or two lists.
pub const JOIN: i32 = 11;

/// Whether a text begins with another.
pub const STARTS: i32 = 12;

/// Whether a text ends with another.
pub const ENDS: i32 = 13;

/// Whether a text contains another.
pub const CONTAINS: i32 = 14;

/// Whether a value is an item of a list, or a key of a map.
pub const MEMBER: i32 = 15;

/// An empty list.
pub const LIST_NEW: i32 = 16;

/// A list with one more item.
pub const PUSH: i32 = 17;

/// An empty map.
pub const MAP_NEW: i32 = 18;

/// A map with one more entry.
pub const PUT: i32 = 19;

/// The item of a list, or the key of a map, at an index.
pub const ITEM: i32 = 20;

/// The number of items or entries, as a word; -1 if the value has neither.
pub const COUNT: i32 = 21;

/// The decimal text of an int.
pub const TEXT_OF_INT: i32 = 22;

/// The negation of a truth.
pub const NOT: i32 = 23;

/// The kind of an int.
pub const INT_KIND: i32 = 3;

/// The kind of a text.
pub const TEXT_KIND: i32 = 4;
