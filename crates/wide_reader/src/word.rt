//! The words of a text.

ghost use Rattle.std.specs.Prelude.{◌≡◌, ◌<◌, ◌-◌, [], ◌∷◌, take, drop, length, IfSome, MatchOption};
ghost use Rattle.wide_tokens.specs.Token.{token_view, inside};
ghost use Rattle.wide_reader.specs.Look.{words};
ghost use Rattle.wide_reader.specs.Shown.{word_view};

use cel_tokens::{Mark, mark_of};
use wide_tokens::{Kind, Token};

/// The word of a token: its kind, and its bytes or its value.
#[derive(Clone, Copy)]
pub enum Word<'a> {
    Name(&'a [u8]),
    /// A name in back quotes, without the quotes.
    Quoted(&'a [u8]),
    Int(i64),
    Uint(u64),
    /// A text literal with its escapes resolved.
    Text(&'a str),
    Bytes,
    Double,
    Mark(Mark),
}

/// The bytes of the token in the text.
fn bytes_of<'a>(text: &'a [u8], token: &Token) -> &'a [u8]
    ensures { result.now ≡ take (token.now.end - token.now.place) (drop token.now.place text.now) }
{
    let rest = &text[token.place.min(text.len())..];
    let len = token.end.saturating_sub(token.place);
    &rest[..len.min(rest.len())]
}

/// The bytes between the first and the last.
fn inside(bytes: &[u8]) -> &[u8]
    ensures { result.now ≡ inside bytes.now }
{
    let rest = &bytes[bytes.len().min(1)..];
    &rest[..bytes.len().saturating_sub(2)]
}

/// The word of the token. A mark's bytes that are no mark would give the empty
/// name; no token of a text has such bytes.
fn word_of<'a>(text: &'a [u8], token: &'a Token) -> Word<'a>
    ensures { word_view result ≡ (token_view text.now token.now).word }
{
    let bytes = bytes_of(text, token);
    match &token.kind {
        Kind::Name => Word::Name(bytes),
        Kind::Quoted => Word::Quoted(inside(bytes)),
        Kind::Int(value) => Word::Int(*value),
        Kind::Uint(value) => Word::Uint(*value),
        Kind::Text(said) => Word::Text(said.as_str()),
        Kind::Bytes => Word::Bytes,
        Kind::Double => Word::Double,
        Kind::Mark => match mark_of(bytes) {
            Some(mark) => Word::Mark(mark),
            None => Word::Name(&bytes[..0]),
        },
    }
}

/// The first word, and the tokens after it.
pub fn first<'a>(text: &'a [u8], tokens: &'a [Token]) -> Option<(Word<'a>, &'a [Token])>
    ensures word { MatchOption result (words text.now tokens.now ≡ []) (λ x. words text.now tokens.now ≡ word_view x.0 ∷ words text.now x.1.now) }
    ensures shorter { IfSome result (λ x. length x.1.now < length tokens.now) }
{
    match tokens {
        [token, rest @ ..] => Some((word_of(text, token), rest)),
        [] => None,
    }
}
