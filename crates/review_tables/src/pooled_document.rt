//! Where the value of a document in a pool is.

use crate::placed::Placed;

/// Where the value of a document in a pool is. A document with a number that is not a 64-bit signed
/// integer has no value.
#[derive(Clone, Copy, Debug, Drop)]
pub struct PooledDocument {
    pub(crate) placed: Option<Placed>,
}
