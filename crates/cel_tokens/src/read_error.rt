//! Why a text is not an expression.

ghost use Rattle.std.specs.Prelude.{◌≡◌};
ghost use Rattle.cel_tokens.specs.declared.read_error.ReadError.TheVariants.{Memory};

use std::alloc::{AllocError, AllocFailed};
use thiserror::Error;

/// Why a text is not an expression. The number in a variant is a position in the text: a byte, counted from 0.
#[derive(Clone, Copy, Debug, PartialEq, Eq, Error)]
pub enum ReadError {
    /// No token begins at this byte.
    #[error("no token begins at byte {0}")]
    UnknownCharacter(usize),
    /// The text literal that begins at this byte does not end on its line, or has an invalid
    /// escape.
    #[error("the text literal at byte {0} is not ended, or has a wrong escape")]
    InvalidTextLiteral(usize),
    /// The int whose digits begin at this byte does not fit a signed 64-bit integer.
    #[error("the int at byte {0} is outside 64 bits")]
    IntOutOfRange(usize),
    /// The grammar does not allow the token at this byte, or the text ends too early, at this byte.
    #[error("no expression has what stands at byte {0}")]
    UnexpectedToken(usize),
    /// The bracket or `?` at this byte would be the 101st open one.
    #[error("more than 100 brackets and conditions are open at byte {0}")]
    TooManyOpen(usize),
    /// The text has more than 65,536 bytes (the position is then 65,536), or the token at this byte is the 4,097th.
    #[error("the text is too long at byte {0}")]
    TextTooLong(usize),
    /// An allocation failed.
    #[error("out of memory")]
    Memory,
}

impl ReadError {
    ghost use Rattle.std.specs.Prelude.{◌≤◌, length};
    ghost use Rattle.cel_tokens.specs.ErrorCodes.{read_error_code, read_error_place};

    /// The error's code: `P1` to `P6`, or `memory`.
    pub fn code(&self) -> &'static str
        ensures text { result.now ≡ read_error_code self.now }
        ensures length { length result.now ≤ 6 }
    {
        match self {
            ReadError::UnknownCharacter(_) => "P1",
            ReadError::InvalidTextLiteral(_) => "P2",
            ReadError::IntOutOfRange(_) => "P3",
            ReadError::UnexpectedToken(_) => "P4",
            ReadError::TooManyOpen(_) => "P5",
            ReadError::TextTooLong(_) => "P6",
            ReadError::Memory => "memory",
        }
    }

    /// The byte at which the text is refused, counted from 0.
    pub fn place(&self) -> Option<usize>
        ensures { result ≡ read_error_place self.now }
    {
        match *self {
            ReadError::UnknownCharacter(place)
            | ReadError::InvalidTextLiteral(place)
            | ReadError::IntOutOfRange(place)
            | ReadError::UnexpectedToken(place)
            | ReadError::TooManyOpen(place)
            | ReadError::TextTooLong(place) => Some(place),
            ReadError::Memory => None,
        }
    }
}

impl From<AllocError> for ReadError {
    ghost from_gives = { λ _ e. e ≡ Memory };

    fn from(_error: AllocError) -> ReadError {
        ReadError::Memory
    }
}

impl<T: Drop> From<AllocFailed<T>> for ReadError {
    ghost from_gives = { λ _ e. e ≡ Memory };

    fn from(_error: AllocFailed<T>) -> ReadError {
        ReadError::Memory
    }
}
