//! Why a field cannot be read.
ghost use Rattle.std.specs.Prelude.{◌≡◌};
ghost use Rattle.admission_documents.specs.declared.field_error.FieldError.TheVariants.{Memory};

use std::alloc::{AllocError, AllocFailed};
use thiserror::Error;

/// Why a field cannot be read.
#[derive(Clone, Copy, Debug, PartialEq, Eq, Error)]
pub enum FieldError {
    /// The API server does not store such a value, or a key is unknown.
    #[error("the field has not its form")]
    InvalidField,
    /// An allocation failed.
    #[error("out of memory")]
    Memory,
}

impl From<AllocError> for FieldError {
    ghost from_gives = { λ _ e. e ≡ Memory };

    fn from(_error: AllocError) -> FieldError {
        FieldError::Memory
    }
}

impl<T: Drop> From<AllocFailed<T>> for FieldError {
    ghost from_gives = { λ _ e. e ≡ Memory };

    fn from(_error: AllocFailed<T>) -> FieldError {
        FieldError::Memory
    }
}
