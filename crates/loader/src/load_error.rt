//! Why there is no image.

ghost use Rattle.std.specs.Prelude.{◌≡◌};
ghost use Rattle.loader.specs.declared.load_error.LoadError.TheVariants.{Memory};

use std::alloc::AllocError;
use thiserror::Error;

/// Why a file, or code and constants, are not an image.
#[derive(Clone, Copy, Debug, PartialEq, Eq, Error)]
pub enum LoadError {
    /// The file has fewer than 16 bytes, the length of its head.
    #[error("the file is shorter than the 16 bytes of its head")]
    TooShort,
    /// The file begins with neither `CELBPF01` nor `CELBPF02`.
    #[error("the file begins with neither CELBPF01 nor CELBPF02")]
    UnknownMagic,
    /// The code has no slots, or more than 65,536.
    #[error("the code has no slots, or more than 65536")]
    BadSlotCount,
    /// The constants have more than 1,048,576 bytes.
    #[error("the constants are longer than 1048576 bytes")]
    ConstantsTooLong,
    /// The length of the file differs from the one that its head states, or the length of the code is
    /// not a multiple of 8 bytes, the length of a slot.
    #[error("the length is not that of the slots and constants")]
    BadLength,
    /// An allocation failed.
    #[error("out of memory")]
    Memory,
}

impl LoadError {
    ghost use Rattle.std.specs.Prelude.{◌≤◌, length};
    ghost use Rattle.loader.specs.ErrorCodes.{load_error_code};

    /// The error's code: `L1` to `L5`, or `memory`.
    pub fn code(&self) -> &'static str
        ensures text { result.now ≡ load_error_code self.now }
        ensures length { length result.now ≤ 6 }
    {
        match self {
            LoadError::TooShort => "L1",
            LoadError::UnknownMagic => "L2",
            LoadError::BadSlotCount => "L3",
            LoadError::ConstantsTooLong => "L4",
            LoadError::BadLength => "L5",
            LoadError::Memory => "memory",
        }
    }
}

impl From<AllocError> for LoadError {
    ghost from_gives = { λ _ e. e ≡ Memory };

    fn from(_error: AllocError) -> LoadError {
        LoadError::Memory
    }
}
