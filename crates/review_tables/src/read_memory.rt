//! The memory for reading documents.

use crate::pending_map::PendingMap;
use json::Scratch;
use std::alloc::Global;

/// What reading a document allocates for itself. It is reused for the next one, and no result depends on
/// what it holds.
#[derive(Drop)]
pub(crate) struct ReadMemory {
    pub(crate) scratch: Scratch,
    /// The vectors that collect the entries of a map.
    pub(crate) pending: PendingMap,
}

impl ReadMemory {
    pub(crate) fn new(alloc: Global) -> ReadMemory {
        ReadMemory {
            scratch: Scratch::new(alloc),
            pending: PendingMap::new(alloc),
        }
    }
}
