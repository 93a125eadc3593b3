//! Why a policy is not compiled.

ghost use Rattle.std.specs.Prelude.{◌≡◌, Some};
ghost use Rattle.policy_glue.specs.CompileErrors.{compile_text, from_program};
ghost use Rattle.policy_glue.specs.declared.compile_error.CompileError.TheVariants.{Memory};

use crate::expression_error::ExpressionError;
use crate::part_kind::PartKind;
use codegen::CodeError;
use policy_code::ProgramError;
use std::alloc::{AllocError, AllocFailed};
use std::error::Error;
use std::fmt;

/// Why a policy is not compiled. If several causes hold, the first is reported: the parts are
/// tested in order, each for the first three causes of this list, and then the whole policy for the
/// next two.
#[derive(Clone, Copy, Debug, PartialEq, Eq)]
pub enum CompileError {
    /// The expression of a part is refused. Gives the kind of the part, its place in its list,
    /// counted from 0, and the cause.
    InvalidExpression(PartKind, usize, ExpressionError),
    /// The type of a condition or a validation is neither `Bool` nor `Dyn`.
    NotABool,
    /// The type of a message expression is neither `String` nor `Dyn`.
    MessageNotAString,
    /// The policy has more than 512 nodes. An image has 65,536 slots, which is 128 for each node.
    TooManyNodes,
    /// The texts of the policy, each counted once, have more than 1,048,576 bytes together, which
    /// is the limit for the constants of an image.
    TooManyTextBytes,
    /// An allocation failed.
    Memory,
}

impl CompileError {
    ghost use Rattle.std.specs.Prelude.{◌≤◌, length};
    ghost use Rattle.policy_glue.specs.ErrorCodes.{compile_error_code};

    /// The error's code: `K6`, `K7`, `K9`, `G3`, `G4` or `memory`.
    pub fn code(&self) -> &'static str
        ensures text { result.now ≡ compile_error_code self.now }
        ensures length { length result.now ≤ 6 }
    {
        match self {
            CompileError::InvalidExpression(_, _, _) => "K6",
            CompileError::NotABool => "K7",
            CompileError::MessageNotAString => "K9",
            CompileError::TooManyNodes => CodeError::TooManyNodes.code(),
            CompileError::TooManyTextBytes => CodeError::TooManyTextBytes.code(),
            CompileError::Memory => "memory",
        }
    }
}

/// The code, and for an expression the part and the cause: `K6 validation 0 P4 at 13`.
impl fmt::Display for CompileError {
    ghost output = { λ e. Some (compile_text e) };

    fn fmt<W: fmt::Write>(&self, f: &mut fmt::Formatter<W>) -> fmt::Result {
        let code = self.code();
        match *self {
            CompileError::InvalidExpression(part, place, error) => write!(
                f,
                "{code} {part} {place} {error}"
            ),
            _ => f.write_str(code),
        }
    }
}

impl Error for CompileError {}

impl From<AllocError> for CompileError {
    ghost from_gives = { λ _ e. e ≡ Memory };

    fn from(_error: AllocError) -> CompileError {
        CompileError::Memory
    }
}

impl<T: Drop> From<AllocFailed<T>> for CompileError {
    ghost from_gives = { λ _ e. e ≡ Memory };

    fn from(_error: AllocFailed<T>) -> CompileError {
        CompileError::Memory
    }
}

impl From<ProgramError> for CompileError {
    ghost from_gives = { λ e x. x ≡ from_program e };

    fn from(error: ProgramError) -> CompileError {
        match error {
            ProgramError::TooManyNodes => CompileError::TooManyNodes,
            ProgramError::TooManyTextBytes => CompileError::TooManyTextBytes,
            ProgramError::Memory => CompileError::Memory,
        }
    }
}
