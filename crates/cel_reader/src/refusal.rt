//! Why the tokens are not an expression, and where.

ghost use Rattle.std.specs.Prelude.{◌≡◌, suc, length, if◌then◌else◌};
ghost use Rattle.cel_reader.specs.Look.{takes_comma};
ghost use Rattle.cel_reader.specs.declared.refusal.Refusal.TheVariants as refusal;

use crate::closing::Closing;
use cel_tokens::Token;
use std::alloc::{AllocError, AllocFailed};

/// Why the tokens are not an expression, with the number of tokens left at the error.
#[derive(Clone, Copy, Debug, PartialEq, Eq)]
pub enum Refusal {
    /// The first token left does not fit; or none is left and the expression is incomplete.
    Misfit(usize),
    /// The first token left opens one bracket or conditional too many.
    Deep(usize),
    /// An allocation failed.
    Memory,
}

impl From<AllocError> for Refusal {
    ghost from_gives = { λ _ e. e ≡ refusal.Memory };

    fn from(_error: AllocError) -> Refusal {
        Refusal::Memory
    }
}

impl<T: Drop> From<AllocFailed<T>> for Refusal {
    ghost from_gives = { λ _ e. e ≡ refusal.Memory };

    fn from(_error: AllocFailed<T>) -> Refusal {
        Refusal::Memory
    }
}

/// The error at the first token, or at the text's end.
pub fn misfit(tokens: &[Token]) -> Refusal
    ensures { result ≡ refusal.Misfit (length tokens.now) }
{
    Refusal::Misfit(tokens.len())
}

/// The error at the bracket or question mark before these tokens.
pub fn too_deep(behind: &[Token]) -> Refusal
    ensures { result ≡ refusal.Deep (suc (length behind.now)) }
{
    Refusal::Deep(behind.len() + 1)
}

/// The error for a comma that is first in a list that does not end. In a literal the comma may end an empty
/// list, so the token after it is the invalid one.
pub fn lone_comma(tokens: &[Token], behind: &[Token], closing: Closing) -> Refusal
    ensures { result ≡ refusal.Misfit (length (if takes_comma closing then behind.now else tokens.now)) }
{
    if closing.takes_comma() {
        misfit(behind)
    } else {
        misfit(tokens)
    }
}
