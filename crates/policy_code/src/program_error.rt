//! Why a policy has no program.

ghost use Rattle.std.specs.Prelude.{◌≡◌};
ghost use Rattle.policy_code.specs.declared.program_error.ProgramError.TheVariants.{Memory};

use std::alloc::AllocError;

/// Why a policy has no program. If both limits are passed, the first is reported.
#[derive(Clone, Copy, Debug, PartialEq, Eq)]
pub enum ProgramError {
    /// The policy has more than 512 nodes. An image has 65,536 slots, which is 128 for each node.
    TooManyNodes,
    /// The texts of the policy, each counted once, have more than 1,048,576 bytes together, which
    /// is the limit for the constants of an image.
    TooManyTextBytes,
    /// An allocation failed.
    Memory,
}

impl From<AllocError> for ProgramError {
    ghost from_gives = { λ _ e. e ≡ Memory };

    fn from(_error: AllocError) -> ProgramError {
        ProgramError::Memory
    }
}
