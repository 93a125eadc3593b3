//! Where the values of a namespace and params are.

use crate::placed::Placed;
use value_table::Heap;

/// Where the values of a namespace and params are. A document with a number that is not a 64-bit
/// signed integer has no value.
#[derive(Clone, Copy, Debug, Drop)]
pub(crate) struct OtherRoots {
    pub(crate) namespace: Option<Placed>,
    pub(crate) params: Option<Placed>,
}

/// The values of a namespace and params.
#[derive(Drop)]
pub(crate) struct PlacedOthers {
    pub(crate) heap: Heap,
    /// Where they are. `None` if one of the documents is not JSON.
    pub(crate) places: Option<OtherRoots>,
}
