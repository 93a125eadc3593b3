//! Errors of the translation.

ghost use Rattle.std.specs.Prelude.{◌≡◌};
ghost use Rattle.wide_translation.specs.declared.translation_error.TranslationError.TheVariants.{Memory};

use std::alloc::AllocError;
use thiserror::Error;

/// Why an expression is not translated.
#[derive(Debug, Drop, Error)]
pub enum TranslationError {
    /// A name, a function or a method that has no meaning here.
    #[error("{0} is not supported here")]
    UnknownName(String),
    /// An optional value where a value is needed, or a value where an optional value is needed.
    #[error("an optional value cannot be used here")]
    OptionalValue,
    /// An iteration name that the translation needs.
    #[error("{0} cannot be an iteration name here")]
    TakenName(String),
    /// An unsigned int that is no operand of a comparison, or takes more than 63 bits.
    #[error("this unsigned int is not supported here")]
    UnsignedInt,
    /// A macro with two names that uses the indices of a list, without a table of them.
    #[error("the first name of this macro needs tables")]
    NeedsIndices,
    /// An optional entry whose key is no text literal, or more than three of them in a map.
    #[error("this optional entry is not supported here")]
    OptionalEntry,
    /// A form that is not translated.
    #[error("this form is not supported here")]
    Unsupported,
    /// An allocation failed.
    #[error("out of memory")]
    Memory,
}

impl From<AllocError> for TranslationError {
    ghost from_gives = { λ _ e. e ≡ Memory };

    fn from(_error: AllocError) -> TranslationError {
        TranslationError::Memory
    }
}
