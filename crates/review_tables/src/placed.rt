//! The place and the size of a value that was read.

/// The place of a value's cell, and the value's size, capped at 2^64 - 1.
#[derive(Clone, Copy, Debug, Drop)]
pub(crate) struct Placed {
    pub(crate) place: u64,
    pub(crate) size: u64,
}
