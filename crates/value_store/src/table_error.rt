//! Why the roots of a review are refused.

ghost use Rattle.std.specs.Prelude.{◌≡◌};
ghost use Rattle.value_store.specs.declared.table_error.TableError.TheVariants.{Memory};

use std::alloc::{AllocError, AllocFailed};
use thiserror::Error;

/// Why five documents make no table. The number in a variant is the reference of the root, 4 to 8.
#[derive(Clone, Copy, Debug, PartialEq, Eq, Error)]
pub enum TableError {
    /// The root at this reference is neither an object nor null.
    #[error("root {0} is neither an object nor null")]
    NotAnObject(u64),
    /// The root at this reference contains a number that is not a signed 64-bit integer.
    #[error("root {0} holds a number that is no integer of 64 bits")]
    NumberOutOfInt64(u64),
    /// The sizes of the roots together exceed 16,777,216, the limit of the charge.
    #[error("the roots are too large")]
    RootsTooLarge,
    /// An allocation failed.
    #[error("out of memory")]
    Memory,
}

impl TableError {
    ghost use Rattle.std.specs.Prelude.{◌≤◌, length};
    ghost use Rattle.value_store.specs.ErrorCodes.{table_error_code};

    /// The error's code: `V1` to `V3`, or `memory`.
    pub fn code(&self) -> &'static str
        ensures text { result.now ≡ table_error_code self.now }
        ensures length { length result.now ≤ 6 }
    {
        match self {
            TableError::NotAnObject(_) => "V1",
            TableError::NumberOutOfInt64(_) => "V2",
            TableError::RootsTooLarge => "V3",
            TableError::Memory => "memory",
        }
    }
}

impl From<AllocError> for TableError {
    ghost from_gives = { λ _ e. e ≡ Memory };

    fn from(_error: AllocError) -> TableError {
        TableError::Memory
    }
}

impl<T: Drop> From<AllocFailed<T>> for TableError {
    ghost from_gives = { λ _ e. e ≡ Memory };

    fn from(_error: AllocFailed<T>) -> TableError {
        TableError::Memory
    }
}
