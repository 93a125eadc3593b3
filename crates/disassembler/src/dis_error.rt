//! Why there is no listing.

ghost use Rattle.std.specs.Prelude.{◌≡◌};
ghost use Rattle.disassembler.specs.declared.dis_error.DisError.TheVariants.{Memory};

use std::alloc::AllocError;
use thiserror::Error;

/// Why code has no listing, and no line of a listing.
#[derive(Clone, Copy, Debug, PartialEq, Eq, Error)]
pub enum DisError {
    /// The length of the code is not a multiple of 8 bytes, the length of a slot.
    #[error("the code is not a whole number of slots")]
    PartialSlot,
    /// The code has more than 65,536 slots.
    #[error("the code has more than 65536 slots")]
    CodeTooLong,
    /// An allocation failed.
    #[error("out of memory")]
    Memory,
}

impl DisError {
    ghost use Rattle.std.specs.Prelude.{◌≤◌, length};
    ghost use Rattle.disassembler.specs.ErrorCodes.{dis_error_code};

    /// The error's code: `D1` or `D2`, or `memory`.
    pub fn code(&self) -> &'static str
        ensures text { result.now ≡ dis_error_code self.now }
        ensures length { length result.now ≤ 6 }
    {
        match self {
            DisError::PartialSlot => "D1",
            DisError::CodeTooLong => "D2",
            DisError::Memory => "memory",
        }
    }
}

impl From<AllocError> for DisError {
    ghost from_gives = { λ _ e. e ≡ Memory };

    fn from(_error: AllocError) -> DisError {
        DisError::Memory
    }
}
