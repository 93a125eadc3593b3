//! Why an expression is refused.

ghost use Rattle.std.specs.Prelude.{◌≡◌};
ghost use Rattle.wide_policy.specs.Errors.{from_reader, from_translation, from_writer, in_part, translation_code, wide_error_code, wide_error_place};
ghost use Rattle.wide_policy.specs.declared.expression_error.WideExpressionError.TheVariants.{Memory};

use crate::wide_policy_error::WidePolicyError;
use cel_reader::ReadError;
use cel_writer::WriteError;
use policy_glue::PartKind;
use thiserror::Error;
use wide_reader::WideReadError;
use wide_translation::TranslationError;

/// Why an expression is refused. If several causes hold, the first of this list is reported.
#[derive(Debug, Drop, Error)]
pub enum WideExpressionError {
    /// The text is not an expression.
    #[error("{0}")]
    Unread(WideReadError),
    /// The expression is more than 512 deep.
    #[error("the expression nests too deep")]
    TooDeep,
    /// The expression has no translation.
    #[error("{0}")]
    Untranslated(TranslationError),
    /// The expression of a condition, a validation or a message is an optional value.
    #[error("an optional value cannot be a result here")]
    OptionalResult,
    /// The text of the translation is too long, or nests too deep.
    #[error("the translation is too long, or nests too deep")]
    Unwritten,
    /// An allocation failed.
    #[error("out of memory")]
    Memory,
}

impl WideExpressionError {
    /// The error's code: that of the text (`P1` to `P6`, `M1` to `M3`, `W1` to `W3`), `W10` if the expression is too
    /// deep, `W2` or `W4` to `W6` of the translation, `P6` if the translation cannot be written, or `memory`.
    pub fn code(&self) -> &'static str
        ensures { result.now ≡ wide_error_code self.now }
    {
        match self {
            WideExpressionError::Unread(error) => error.code(),
            WideExpressionError::TooDeep => "W10",
            WideExpressionError::Untranslated(error) => translation_code(error),
            WideExpressionError::OptionalResult => "W4",
            WideExpressionError::Unwritten => "P6",
            WideExpressionError::Memory => "memory",
        }
    }

    /// The byte at which the text is refused, counted from 0.
    pub fn place(&self) -> Option<usize>
        ensures { result ≡ wide_error_place self.now }
    {
        match self {
            WideExpressionError::Unread(error) => error.place(),
            _ => None,
        }
    }

    /// The refusal of the part at this place of its list.
    pub(crate) fn at(self, part: PartKind, place: usize) -> WidePolicyError
        ensures { result ≡ in_part part place self }
    {
        match self {
            WideExpressionError::Memory => WidePolicyError::Memory,
            other => WidePolicyError::InvalidExpression(part, place, other),
        }
    }
}

fn translation_code(error: &TranslationError) -> &'static str
    ensures { result.now ≡ translation_code error.now }
{
    match error {
        TranslationError::UnknownName(_) => "W5",
        TranslationError::OptionalValue => "W4",
        TranslationError::TakenName(_) => "W5",
        TranslationError::UnsignedInt => "W2",
        TranslationError::NeedsIndices => "W5",
        TranslationError::OptionalEntry => "W6",
        TranslationError::Unsupported => "W5",
        TranslationError::Memory => "memory",
    }
}

impl From<WideReadError> for WideExpressionError {
    ghost from_gives = { λ e x. x ≡ from_reader e };

    fn from(error: WideReadError) -> WideExpressionError {
        match error {
            WideReadError::Text(ReadError::Memory) => WideExpressionError::Memory,
            _ => WideExpressionError::Unread(error),
        }
    }
}

impl From<TranslationError> for WideExpressionError {
    ghost from_gives = { λ e x. x ≡ from_translation e };

    fn from(error: TranslationError) -> WideExpressionError {
        match error {
            TranslationError::Memory => WideExpressionError::Memory,
            other => WideExpressionError::Untranslated(other),
        }
    }
}

impl From<WriteError> for WideExpressionError {
    ghost from_gives = { λ e x. x ≡ from_writer e };

    fn from(error: WriteError) -> WideExpressionError {
        match error {
            WriteError::Memory => WideExpressionError::Memory,
            WriteError::Unreadable => WideExpressionError::Unwritten,
        }
    }
}
