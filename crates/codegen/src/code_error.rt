//! Why code generation fails.

ghost use Rattle.std.specs.Prelude.{◌≡◌};
ghost use Rattle.codegen.specs.declared.code_error.CodeError.TheVariants.{Memory};

use std::alloc::AllocError;
use thiserror::Error;

/// Why code generation fails for an expression, or for all expressions of an emitter together.
#[derive(Clone, Copy, Debug, PartialEq, Eq, Error)]
pub enum CodeError {
    /// The expression needs more than 60 words of the stack.
    #[error("the expression needs more than 60 words of the stack")]
    NeedsTooManyWords,
    /// The variable's depth is above 6. The depth is 1 more than the greatest depth of the
    /// variables that it uses.
    #[error("the variables that a variable names are nested more than six deep")]
    VariableTooDeep,
    /// The expressions have more than 512 nodes. An image has 65,536 slots, which is 128 for each
    /// node. Also if an expression or a variable was added after more than 0x7fff_0000 slots.
    #[error("the expressions have more than 512 nodes")]
    TooManyNodes,
    /// The texts, each counted once, have more than 1,048,576 bytes together, which is the limit
    /// for the constants of an image.
    #[error("the expressions have more than 1048576 bytes of texts")]
    TooManyTextBytes,
    /// An allocation failed.
    #[error("out of memory")]
    Memory,
}

impl CodeError {
    ghost use Rattle.std.specs.Prelude.{◌≤◌, length};
    ghost use Rattle.codegen.specs.ErrorCodes.{code_error_code};

    /// The error's code: `G1` to `G4`, or `memory`.
    pub fn code(&self) -> &'static str
        ensures text { result.now ≡ code_error_code self.now }
        ensures length { length result.now ≤ 6 }
    {
        match self {
            CodeError::NeedsTooManyWords => "G1",
            CodeError::VariableTooDeep => "G2",
            CodeError::TooManyNodes => "G3",
            CodeError::TooManyTextBytes => "G4",
            CodeError::Memory => "memory",
        }
    }
}

impl From<AllocError> for CodeError {
    ghost from_gives = { λ _ e. e ≡ Memory };

    fn from(_error: AllocError) -> CodeError {
        CodeError::Memory
    }
}
