//! Where the values of a request are.

use crate::placed::Placed;

/// Where the values of a request's `uid`, `object` and `oldObject` are, and that of the rest of it.
#[derive(Clone, Copy, Debug, Drop)]
pub(crate) struct PlacedRequest {
    pub(crate) uid: u64,
    pub(crate) object: Option<Placed>,
    pub(crate) old_object: Option<Placed>,
    pub(crate) rest: Option<Placed>,
}
