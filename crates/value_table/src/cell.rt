//! The cells of values.

use crate::content::Content;

/// A value, with measures that are needed often.
#[derive(Clone, Copy, Debug, PartialEq, Eq)]
pub struct Cell {
    pub content: Content,
    /// The value's depth.
    pub(crate) depth: u64,
    /// The length of its JSON text in bytes, capped at 2^64 - 1.
    pub(crate) json: u64,
}
