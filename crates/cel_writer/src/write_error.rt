//! Why an expression is not written.

ghost use Rattle.std.specs.Prelude.{◌≡◌};
ghost use Rattle.cel_writer.specs.declared.write_error.WriteError.TheVariants.{Memory};

use std::alloc::{AllocError, AllocFailed};
use thiserror::Error;

/// Why an expression is not written.
#[derive(Clone, Copy, Debug, PartialEq, Eq, Error)]
pub enum WriteError {
    /// Its text is not read as the expression: it is too long, or has too many open brackets, or a part of the
    /// expression cannot be written.
    #[error("the expression is too long, or nests too deep, to be read again")]
    Unreadable,
    /// An allocation failed.
    #[error("out of memory")]
    Memory,
}

impl From<AllocError> for WriteError {
    ghost from_gives = { λ _ e. e ≡ Memory };

    fn from(_error: AllocError) -> WriteError {
        WriteError::Memory
    }
}

impl<T: Drop> From<AllocFailed<T>> for WriteError {
    ghost from_gives = { λ _ e. e ≡ Memory };

    fn from(_error: AllocFailed<T>) -> WriteError {
        WriteError::Memory
    }
}
