//! Why reading a value failed.

use std::alloc::{AllocError, AllocFailed};

/// Why reading a value failed.
#[derive(Clone, Copy, Debug, Drop, PartialEq, Eq)]
pub(crate) enum ReadError {
    /// The text is not JSON as `serde_json` reads it.
    Invalid,
    /// An allocation failed.
    Memory,
}

impl From<json::Invalid> for ReadError {
    ghost use Rattle.review_tables.specs.declared.read_error.ReadError.TheVariants.{Invalid};
    ghost use Rattle.std.specs.Prelude.{◌≡◌};

    ghost from_gives = { λ _ e. e ≡ Invalid };

    fn from(_invalid: json::Invalid) -> ReadError {
        ReadError::Invalid
    }
}

impl From<AllocError> for ReadError {
    ghost use Rattle.review_tables.specs.declared.read_error.ReadError.TheVariants.{Memory};
    ghost use Rattle.std.specs.Prelude.{◌≡◌};

    ghost from_gives = { λ _ e. e ≡ Memory };

    fn from(_error: AllocError) -> ReadError {
        ReadError::Memory
    }
}

impl<T: Drop> From<AllocFailed<T>> for ReadError {
    ghost use Rattle.review_tables.specs.declared.read_error.ReadError.TheVariants.{Memory};
    ghost use Rattle.std.specs.Prelude.{◌≡◌};

    ghost from_gives = { λ _ e. e ≡ Memory };

    fn from(_error: AllocFailed<T>) -> ReadError {
        ReadError::Memory
    }
}
