//! Why a pattern is refused.

ghost use Rattle.std.specs.Prelude.{◌≡◌};

use std::alloc::AllocError;
use thiserror::Error;

/// Why a pattern is refused.
#[derive(Debug, Drop, Error)]
pub enum PatternError {
    /// At this byte is the first thing that does not fit.
    #[error("the pattern is not supported at byte {0}")]
    Misfit(usize),
    /// The pattern is longer than 1,024 bytes.
    #[error("the pattern is longer than 1024 bytes")]
    TooLong,
    /// The compiled pattern would be too large, or `regex` refuses it.
    #[error("the pattern cannot be compiled: {0}")]
    NotCompiled(regex::Error),
    /// Out of memory.
    #[error("out of memory")]
    Memory,
}

impl From<AllocError> for PatternError {
    ghost use Rattle.pattern_reader.specs.declared.pattern_error.PatternError.TheVariants.{Memory};

    ghost from_gives = { λ _ error. error ≡ Memory };

    fn from(_: AllocError) -> PatternError {
        PatternError::Memory
    }
}
