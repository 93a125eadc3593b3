//! Why a file cannot be read or written.
ghost use Rattle.std.specs.Prelude.{◌≡◌};
ghost use Rattle.host.specs.declared.file_error.FileError.TheVariants.{Memory};

use std::alloc::AllocError;
use thiserror::Error;

/// Why a file cannot be read or written.
#[derive(Clone, Copy, Debug, PartialEq, Eq, Error)]
pub enum FileError {
    /// The file does not exist, or cannot be read or written.
    #[error("the file cannot be read or written")]
    Failed,
    /// An allocation failed.
    #[error("out of memory")]
    Memory,
}

impl FileError {
    ghost use Rattle.std.specs.Prelude.{◌≤◌, length};
    ghost use Rattle.host.specs.ErrorCodes.{file_error_code};

    /// The error's code: `file` or `memory`.
    pub fn code(&self) -> &'static str
        ensures text { result.now ≡ file_error_code self.now }
        ensures length { length result.now ≤ 6 }
    {
        match self {
            FileError::Failed => "file",
            FileError::Memory => "memory",
        }
    }
}

impl From<AllocError> for FileError {
    ghost from_gives = { λ _ e. e ≡ Memory };

    fn from(_error: AllocError) -> FileError {
        FileError::Memory
    }
}
