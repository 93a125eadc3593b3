//! Why a store was not made.
use crate::fault::Fault;

/// Why a store was not made. The memory is unchanged.
#[derive(Clone, Copy, Debug, PartialEq, Eq)]
pub enum WriteError {
    /// The store is not allowed: `F3` or `F4`.
    Fault(Fault),
    /// An allocation failed.
    Memory,
}
