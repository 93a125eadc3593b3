//! Why a text is not an expression.

ghost use Rattle.std.specs.Prelude.{◌≡◌};
ghost use Rattle.cel_tokens.specs.declared.read_error.ReadError.TheVariants.{Memory};
ghost use Rattle.wide_reader.specs.declared.wide_error.WideReadError.TheVariants as errors;

use cel_tokens::ReadError;
use std::alloc::{AllocError, AllocFailed};
use thiserror::Error;

/// What is invalid in a macro.
#[derive(Clone, Copy, Debug, PartialEq, Eq)]
pub enum MacroFault {
    /// `has` takes one argument.
    ArgumentCount,
    /// An iteration name is not a plain identifier, or both are the same.
    IterationName,
    /// The argument of `has` does not select a field, or selects one with a question mark.
    NoSelection,
    /// A macro that builds a map of computed keys.
    ComputedMap,
}

/// Why a text is not an expression. The number in a variant is a position in the text: a byte, counted from 0.
#[derive(Clone, Copy, Debug, PartialEq, Eq, Error)]
pub enum WideReadError {
    /// The text is not an expression, or an allocation failed.
    #[error("{0}")]
    Text(ReadError),
    /// Bytes, at this position.
    #[error("bytes are not supported, at byte {0}")]
    Bytes(usize),
    /// A number with a fraction or an exponent, at this position.
    #[error("numbers with fractions are not supported, at byte {0}")]
    Double(usize),
    #[error("{}", .0.words())]
    Macro(MacroFault),
}

impl MacroFault {
    ghost use Rattle.wide_reader.specs.ErrorCodes.{fault_words, fault_code};

    /// The fault in words.
    pub fn words(&self) -> &'static str
        ensures { result.now ≡ fault_words self.now }
    {
        match self {
            MacroFault::ArgumentCount => "a macro has another number of arguments",
            MacroFault::IterationName =>
                "an iteration name is no plain identifier, or stands twice",
            MacroFault::NoSelection => "the argument of `has` selects no field",
            MacroFault::ComputedMap => "no expression of the profile builds a map of computed keys",
        }
    }

    /// The fault's code: `M1` to `M3`, or `W3`.
    pub fn code(&self) -> &'static str
        ensures { result.now ≡ fault_code self.now }
    {
        match self {
            MacroFault::ArgumentCount => "M1",
            MacroFault::IterationName => "M2",
            MacroFault::NoSelection => "M3",
            MacroFault::ComputedMap => "W3",
        }
    }
}

impl WideReadError {
    ghost use Rattle.wide_reader.specs.ErrorCodes.{error_code, error_place};

    /// The error's code: `P1` to `P6`, `W1` to `W3`, `M1` to `M3`, or `memory`.
    pub fn code(&self) -> &'static str
        ensures { result.now ≡ error_code self.now }
    {
        match self {
            WideReadError::Text(error) => error.code(),
            WideReadError::Bytes(_) => "W1",
            WideReadError::Double(_) => "W2",
            WideReadError::Macro(fault) => fault.code(),
        }
    }

    /// The byte at which the text is refused, counted from 0. A macro has none.
    pub fn place(&self) -> Option<usize>
        ensures { result ≡ error_place self.now }
    {
        match self {
            WideReadError::Text(error) => error.place(),
            WideReadError::Bytes(place) | WideReadError::Double(place) => Some(*place),
            WideReadError::Macro(_) => None,
        }
    }
}

impl From<ReadError> for WideReadError {
    ghost from_gives = { λ error e. e ≡ errors.Text error };

    fn from(error: ReadError) -> WideReadError {
        WideReadError::Text(error)
    }
}

impl From<AllocError> for WideReadError {
    ghost from_gives = { λ _ e. e ≡ errors.Text Memory };

    fn from(_error: AllocError) -> WideReadError {
        WideReadError::Text(ReadError::Memory)
    }
}

impl<T: Drop> From<AllocFailed<T>> for WideReadError {
    ghost from_gives = { λ _ e. e ≡ errors.Text Memory };

    fn from(_error: AllocFailed<T>) -> WideReadError {
        WideReadError::Text(ReadError::Memory)
    }
}
