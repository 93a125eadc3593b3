//! Maps that are being added.

use std::alloc::Global;
use value_table::Part;

/// The keys of a map, and the places of its values. The vectors are reused for the next map.
#[derive(Drop)]
pub(crate) struct PendingMap {
    pub(crate) keys: Vec<Part>,
    pub(crate) places: Vec<u32>,
}

impl PendingMap {
    pub(crate) fn new(alloc: Global) -> PendingMap {
        PendingMap {
            keys: Vec::new(alloc),
            places: Vec::new(alloc),
        }
    }
}
