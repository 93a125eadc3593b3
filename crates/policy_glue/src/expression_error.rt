//! Why a policy's expression is refused.

ghost use Rattle.std.specs.Prelude.{◌≡◌, ◌≤◌, length, Some};
ghost use Rattle.policy_glue.specs.CompileErrors.{expression_text, from_macros, from_reader, in_part};
ghost use Rattle.policy_glue.specs.ErrorCodes.{expression_error_code, expression_error_place};
ghost use Rattle.policy_glue.specs.declared.expression_error.ExpressionError.TheVariants.{Memory, Untyped};

use crate::compile_error::CompileError;
use crate::part_kind::PartKind;
use cel_macros::MacroError;
use cel_reader::ReadError;
use cel_types::TypeError;
use codegen::CodeError;
use std::fmt;

/// Why an expression is refused. If several causes hold, the first of this list is reported.
#[derive(Clone, Copy, Debug, PartialEq, Eq)]
pub enum ExpressionError {
    /// The text is not an expression.
    Unread(ReadError),
    /// A macro is not well formed.
    Unexpanded(MacroError),
    /// The expression has no type.
    Untyped(TypeError),
    /// The expression needs more than 60 words of the stack.
    NeedsTooManyWords,
    /// The variable's depth is above 6. The depth is 1 more than the greatest depth of the
    /// variables that it uses.
    VariableTooDeep,
    /// An allocation failed.
    Memory,
}

impl ExpressionError {
    /// The error's code: that of the text's, macro's or type's error, or `G1`, `G2` or `memory`.
    pub fn code(&self) -> &'static str
        ensures text { result.now ≡ expression_error_code self.now }
        ensures length { length result.now ≤ 6 }
    {
        match self {
            ExpressionError::Unread(error) => error.code(),
            ExpressionError::Unexpanded(error) => error.code(),
            ExpressionError::Untyped(error) => error.code(),
            ExpressionError::NeedsTooManyWords => CodeError::NeedsTooManyWords.code(),
            ExpressionError::VariableTooDeep => CodeError::VariableTooDeep.code(),
            ExpressionError::Memory => "memory",
        }
    }

    /// The byte at which the text is refused, counted from 0.
    pub fn place(&self) -> Option<usize>
        ensures { result ≡ expression_error_place self.now }
    {
        match self {
            ExpressionError::Unread(error) => error.place(),
            ExpressionError::Unexpanded(_)
            | ExpressionError::Untyped(_)
            | ExpressionError::NeedsTooManyWords
            | ExpressionError::VariableTooDeep
            | ExpressionError::Memory => None,
        }
    }

    /// The refusal of the part at this place of its list.
    pub(crate) fn at(self, part: PartKind, place: usize) -> CompileError
        ensures { result ≡ in_part part place self }
    {
        match self {
            ExpressionError::Memory => CompileError::Memory,
            _ => CompileError::InvalidExpression(part, place, self),
        }
    }
}

/// The code, and the byte at which the text is refused: `P4 at 13`.
impl fmt::Display for ExpressionError {
    ghost output = { λ e. Some (expression_text e) };

    fn fmt<W: fmt::Write>(&self, f: &mut fmt::Formatter<W>) -> fmt::Result {
        let code = self.code();
        match self.place() {
            Some(place) => write!(f, "{code} at {place}"),
            None => f.write_str(code),
        }
    }
}

impl From<ReadError> for ExpressionError {
    ghost from_gives = { λ e x. x ≡ from_reader e };

    fn from(error: ReadError) -> ExpressionError {
        match error {
            ReadError::Memory => ExpressionError::Memory,
            _ => ExpressionError::Unread(error),
        }
    }
}

impl From<MacroError> for ExpressionError {
    ghost from_gives = { λ e x. x ≡ from_macros e };

    fn from(error: MacroError) -> ExpressionError {
        match error {
            MacroError::Memory => ExpressionError::Memory,
            _ => ExpressionError::Unexpanded(error),
        }
    }
}

impl From<TypeError> for ExpressionError {
    ghost from_gives = { λ e x. x ≡ Untyped e };

    fn from(error: TypeError) -> ExpressionError {
        ExpressionError::Untyped(error)
    }
}
