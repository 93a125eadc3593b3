//! Why a file is not read, with the reason that the system gives.
ghost use Rattle.std.specs.Prelude.{◌≡◌};
ghost use Rattle.host.specs.declared.file_read_error.FileReadError.TheVariants.{Memory};

use crate::file_failure::FileFailure;
use std::alloc::AllocError;
use thiserror::Error;

/// Why a file is not read, with the reason that the system gives.
#[derive(Clone, Copy, Debug, PartialEq, Eq, Error)]
pub enum FileReadError {
    /// The file cannot be read, for this reason.
    #[error("{0}")]
    Failed(FileFailure),
    /// An allocation failed.
    #[error("out of memory")]
    Memory,
}

impl From<AllocError> for FileReadError {
    ghost from_gives = { λ _ e. e ≡ Memory };

    fn from(_error: AllocError) -> FileReadError {
        FileReadError::Memory
    }
}
