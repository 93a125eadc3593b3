//! Why a table of indices is not placed.

ghost use Rattle.std.specs.Prelude.{◌≡◌};
ghost use Rattle.wide_tables.specs.declared.wrap_error.WrapError.TheVariants.{Memory};

use std::alloc::AllocError;
use thiserror::Error;

/// Why a table of indices is not placed.
#[derive(Debug, Drop, Error)]
pub enum WrapError {
    /// The table has not the values of five roots.
    #[error("the table has no roots")]
    NoRoots,
    /// The charge exceeds the limit.
    #[error("the documents are too large")]
    TooLarge,
    /// An allocation failed.
    #[error("out of memory")]
    Memory,
}

impl From<AllocError> for WrapError {
    ghost from_gives = { λ _ e. e ≡ Memory };

    fn from(_error: AllocError) -> WrapError {
        WrapError::Memory
    }
}
