//! Why the tokens are not an expression, and where.

ghost use Rattle.std.specs.Prelude.{◌≡◌, suc, length};
ghost use Rattle.wide_reader.specs.declared.refusal.Refusal.TheVariants as refusal;

use std::alloc::{AllocError, AllocFailed};
use wide_tokens::Token;

/// Why the tokens are not an expression, with the number of tokens left at the error.
#[derive(Clone, Copy)]
pub enum Refusal {
    /// The first token left does not fit; or none is left and the expression is incomplete.
    Misfit(usize),
    /// The first token left opens one bracket or conditional too many.
    Deep(usize),
    /// An allocation failed.
    Memory,
}

impl From<AllocError> for Refusal {
    ghost from_gives = { λ _ e. e ≡ refusal.Memory };

    fn from(_error: AllocError) -> Refusal {
        Refusal::Memory
    }
}

impl<T: Drop> From<AllocFailed<T>> for Refusal {
    ghost from_gives = { λ _ e. e ≡ refusal.Memory };

    fn from(_error: AllocFailed<T>) -> Refusal {
        Refusal::Memory
    }
}

/// The error at the first token, or at the text's end.
pub fn misfit(tokens: &[Token]) -> Refusal
    ensures { result ≡ refusal.Misfit (length tokens.now) }
{
    Refusal::Misfit(tokens.len())
}

/// The error at the bracket or question mark before these tokens.
pub fn too_deep(behind: &[Token]) -> Refusal
    ensures { result ≡ refusal.Deep (suc (length behind.now)) }
{
    Refusal::Deep(behind.len() + 1)
}
