//! The position of an error in the text.

ghost use Rattle.std.specs.Prelude.{◌≡◌, length};
ghost use Rattle.wide_reader.specs.Place.{place_left, refused_at};

use crate::refusal::Refusal;
use cel_tokens::ReadError;
use wide_tokens::Token;

/// The position in bytes of the token with which the last `left` tokens begin, or of the text's end.
fn place_of(text: &[u8], tokens: &[Token], left: usize) -> usize
    ensures { result ≡ place_left (length text.now) tokens.now left }
{
    let behind = &tokens[tokens.len().saturating_sub(left)..];
    match behind {
        [token, ..] => token.place,
        [] => text.len(),
    }
}

/// The error with its position in the text. `tokens` are all tokens of the text.
pub fn placed(text: &[u8], tokens: &[Token], refusal: Refusal) -> ReadError
    ensures { result ≡ refused_at (length text.now) tokens.now refusal }
{
    match refusal {
        Refusal::Misfit(left) => ReadError::UnexpectedToken(place_of(text, tokens, left)),
        Refusal::Deep(left) => ReadError::TooManyOpen(place_of(text, tokens, left)),
        Refusal::Memory => ReadError::Memory,
    }
}
