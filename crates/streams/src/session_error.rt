//! Why a session is interrupted.
ghost use Rattle.std.specs.Prelude.{◌≡◌};
ghost use Rattle.streams.specs.declared.session_error.SessionError.TheVariants.{Memory};

use std::alloc::AllocError;
use thiserror::Error;

/// Why a session is interrupted.
#[derive(Clone, Copy, Debug, PartialEq, Eq, Error)]
pub enum SessionError {
    /// A read of the input failed.
    #[error("the input could not be read")]
    ReadFailed,
    /// A write to the output failed, or wrote no byte.
    #[error("the output could not be written")]
    WriteFailed,
    /// An allocation failed before the first line was read.
    #[error("out of memory")]
    Memory,
}

impl SessionError {
    ghost use Rattle.std.specs.Prelude.{◌≤◌, length};
    ghost use Rattle.streams.specs.ErrorCodes.{session_error_code};

    /// The error's code: `S1` or `S2`, or `memory`.
    pub fn code(&self) -> &'static str
        ensures text { result.now ≡ session_error_code self.now }
        ensures length { length result.now ≤ 6 }
    {
        match self {
            SessionError::ReadFailed => "S1",
            SessionError::WriteFailed => "S2",
            SessionError::Memory => "memory",
        }
    }
}

impl From<AllocError> for SessionError {
    ghost from_gives = { λ _ e. e ≡ Memory };

    fn from(_error: AllocError) -> SessionError {
        SessionError::Memory
    }
}
