//! Why a cluster decides no review.
ghost use Rattle.std.specs.Prelude.{◌≡◌};
ghost use Rattle.cluster_gate.specs.declared.cluster_error.ClusterError.TheVariants.{Memory};

use crate::block_cause::BlockCause;
use std::alloc::{AllocError, AllocFailed};
use thiserror::Error;

/// Why a cluster decides no review.
#[derive(Debug, Drop, Error)]
pub enum ClusterError {
    /// The policy of this name is blocked. It is the first by name.
    #[error("the policy {0} is refused")]
    BlockedPolicy(String, BlockCause),
    /// An allocation failed.
    #[error("out of memory")]
    Memory,
}

impl From<AllocError> for ClusterError {
    ghost from_gives = { λ _ e. e ≡ Memory };

    fn from(_error: AllocError) -> ClusterError {
        ClusterError::Memory
    }
}

impl<T: Drop> From<AllocFailed<T>> for ClusterError {
    ghost from_gives = { λ _ e. e ≡ Memory };

    fn from(_error: AllocFailed<T>) -> ClusterError {
        ClusterError::Memory
    }
}
