//! Why no table is made for a review.

ghost use Rattle.std.specs.Prelude.{◌≡◌};
ghost use Rattle.review_tables.specs.declared.review_error.ReviewError.TheVariants.{Memory};

use std::alloc::AllocError;
use thiserror::Error;

/// Why no table is made for a review, a namespace and params.
#[derive(Clone, Copy, Debug, Drop, PartialEq, Eq, Error)]
pub enum ReviewError {
    /// The review is not an AdmissionReview with a request that has a uid.
    #[error("the document is no review")]
    InvalidReview,
    /// The namespace or the params are not JSON.
    #[error("a document is not JSON")]
    InvalidDocument,
    /// The root with this reference, 4 to 8, is neither an object nor null, or has a number that is
    /// not a 64-bit signed integer.
    #[error("root {0} is neither an object nor null, or holds a number that is no integer of 64 bits")]
    RootRefused(u64),
    /// The sizes of the roots together exceed the charge limit.
    #[error("the roots are too large")]
    ChargeTooLarge,
    /// An allocation failed.
    #[error("out of memory")]
    Memory,
}

impl From<AllocError> for ReviewError {
    ghost from_gives = { λ _ e. e ≡ Memory };

    fn from(_error: AllocError) -> ReviewError {
        ReviewError::Memory
    }
}
