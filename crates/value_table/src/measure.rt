//! The measure of a value.

/// The depth of a value, and the length of its JSON text in bytes, capped at 2^64 - 1.
#[derive(Clone, Copy, Debug, PartialEq, Eq)]
pub(crate) struct Measure {
    pub(crate) depth: u64,
    pub(crate) json: u64,
}
