//! Why a command line is refused.
ghost use Rattle.std.specs.Prelude.{◌≡◌};
ghost use Rattle.host.specs.declared.order_error.OrderError.TheVariants.{Memory};

use std::alloc::AllocError;
use thiserror::Error;

/// Why a command line is refused.
#[derive(Clone, Copy, Debug, PartialEq, Eq, Error)]
pub enum OrderError {
    /// The program does not take these words, or they ask for help.
    #[error("the command line is not one that celbpf takes")]
    InvalidArguments,
    /// An allocation failed before the words were read. They may be valid.
    #[error("out of memory")]
    Memory,
}

impl OrderError {
    ghost use Rattle.std.specs.Prelude.{◌≤◌, length};
    ghost use Rattle.host.specs.ErrorCodes.{order_error_code};

    /// The error's code: `U1` or `memory`.
    pub fn code(&self) -> &'static str
        ensures text { result.now ≡ order_error_code self.now }
        ensures length { length result.now ≤ 6 }
    {
        match self {
            OrderError::InvalidArguments => "U1",
            OrderError::Memory => "memory",
        }
    }
}

impl From<AllocError> for OrderError {
    ghost from_gives = { λ _ e. e ≡ Memory };

    fn from(_error: AllocError) -> OrderError {
        OrderError::Memory
    }
}
