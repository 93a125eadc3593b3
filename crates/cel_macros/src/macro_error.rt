//! Why a macro is refused.

ghost use Rattle.std.specs.Prelude.{◌≡◌};
ghost use Rattle.cel_macros.specs.declared.macro_error.MacroError.TheVariants.{Memory};

use std::alloc::AllocError;
use thiserror::Error;

/// Why an expression cannot be expanded.
#[derive(Clone, Copy, Debug, PartialEq, Eq, Error)]
pub enum MacroError {
    /// A macro has a number of arguments that it does not take.
    #[error("a macro has another number of arguments")]
    WrongArgumentCount,
    /// An iteration name is not a plain identifier, or it is the name of a root or `variables`.
    #[error("an iteration name is no plain identifier, a root's name or `variables`")]
    InvalidIterationName,
    /// The argument of `has` does not select a field.
    #[error("the argument of `has` selects no field")]
    HasWithoutSelection,
    /// An allocation failed.
    #[error("out of memory")]
    Memory,
}

impl MacroError {
    ghost use Rattle.std.specs.Prelude.{◌≤◌, length};
    ghost use Rattle.cel_macros.specs.ErrorCodes.{macro_error_code};

    /// The error's code: `M1` to `M3`, or `memory`.
    pub fn code(&self) -> &'static str
        ensures text { result.now ≡ macro_error_code self.now }
        ensures length { length result.now ≤ 6 }
    {
        match self {
            MacroError::WrongArgumentCount => "M1",
            MacroError::InvalidIterationName => "M2",
            MacroError::HasWithoutSelection => "M3",
            MacroError::Memory => "memory",
        }
    }
}

impl From<AllocError> for MacroError {
    ghost from_gives = { λ _ e. e ≡ Memory };

    fn from(_error: AllocError) -> MacroError {
        MacroError::Memory
    }
}
