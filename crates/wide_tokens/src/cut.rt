//! Splits a text into its tokens.

ghost use Rattle.std.specs.Prelude.{◌≡◌, ◌≤◌, ◌<◌, length, List, ℕ, take, Err, IfOk, OnOk, ◌+◌, ◌++◌, ◌∷◌, []};
ghost use Rattle.std.specs.Str.{IsUtf8};
ghost use Rattle.wide_tokens.specs.Token.{word_of};
ghost use Rattle.wide_tokens.specs.Lexed as fronts;
ghost use Rattle.wide_tokens.specs.Lexis.{WideTokensReturns};
ghost use Rattle.cel_tokens.specs.declared.read_error.ReadError.TheVariants.{TextTooLong};
ghost use Rattle.wide_tokens.specs.Steps.{WideCutsOn, WideCutsTo, refusal_of};
ghost use Rattle.cel_tokens.specs.Limits.{text_limit};

use crate::bytes::tail;
use crate::kind::Kind;
use crate::lexed::{Lexed, front_of};
use crate::token::Token;
use cel_tokens::{Mark, ReadError, TEXT_LIMIT, TOKEN_LIMIT, mark_of};
use std::alloc::{AllocError, Global};

/// Whether a minus after this token may be the sign of an int. `bytes` are those of the token.
fn sign_may_follow(bytes: &[u8], kind: &Kind) -> bool
    ensures { result ≡ fronts.sign_may_follow (word_of bytes.now kind.now) }
{
    match kind {
        Kind::Name => bytes == b"in".as_slice(),
        Kind::Quoted | Kind::Int(_) | Kind::Uint(_) | Kind::Text(_) | Kind::Bytes | Kind::Double =>
            false,
        Kind::Mark => match mark_of(bytes) {
            Some(Mark::CloseParen | Mark::CloseBracket | Mark::CloseBrace) | None => false,
            Some(_) => true,
        },
    }
}

/// The error of what begins at this position, after `count` tokens.
fn refusal(count: usize, at: usize, cause: ReadError) -> ReadError
    ensures { result ≡ refusal_of count at cause }
{
    if count >= TOKEN_LIMIT {
        ReadError::TextTooLong(at)
    } else {
        cause
    }
}

/// Appends the token that begins at this position. Returns the position after it, and whether a sign may be there.
fn add(
    out: &mut Vec<Token>,
    rest: &[u8],
    at: usize,
    len: usize,
    kind: Kind,
) -> Result<(usize, bool), AllocError>
    requires within { len ≤ length rest.now }
    requires short { at + len ≤ text_limit }
    ensures next { IfOk result (λ x. x.0 ≡ at + len) }
    ensures sign { IfOk result (λ x. x.1 ≡ fronts.sign_may_follow (word_of (take len rest.now) kind)) }
    ensures added { OnOk result (out.new.items ≡ out.old.items ++ (record { place = at; end = at + len; kind = kind }) ∷ []) }
{
    let end = at + len;
    let sign = sign_may_follow(&rest[..len], &kind);
    out.push(Token {
        place: at,
        end,
        kind,
    })?;
    Ok((end, sign))
}

/// Appends the token that begins at this position, or skips the blanks and comments there. Returns the next position
/// and whether a sign may be there, or `None` at the end of the text.
fn step(
    out: &mut Vec<Token>,
    bytes: &[u8],
    at: usize,
    signed: bool,
) -> Result<Option<(usize, bool)>, ReadError>
    requires text { IsUtf8 bytes.now }
    requires short { length bytes.now ≤ text_limit }
    requires place { at ≤ length bytes.now }
    ensures { WideCutsOn bytes.now signed at out.old.items out.new.items result }
{
    let alloc = *out.allocator();
    let rest = tail(bytes, at);
    match front_of(alloc, rest, signed)? {
        Lexed::Over => Ok(None),
        Lexed::Space(len) => Ok(Some((at + len, signed))),
        Lexed::Nothing => Err(ReadError::UnknownCharacter(at)),
        Lexed::WrongText => Err(refusal(out.len(), at, ReadError::InvalidTextLiteral(at))),
        Lexed::WideInt(before) => Err(refusal(
            out.len(),
            at,
            ReadError::IntOutOfRange(at + before),
        )),
        Lexed::Word(len, kind) => {
            if out.len() >= TOKEN_LIMIT {
                return Err(ReadError::TextTooLong(at));
            }
            let (next, sign) = add(out, rest, at, len, kind)?;
            Ok(Some((next, sign)))
        }
    }
}

/// The tokens of the text.
fn cut(alloc: Global, bytes: &[u8]) -> Result<Vec<Token>, ReadError>
    requires text { IsUtf8 bytes.now }
    requires short { length bytes.now ≤ text_limit }
    ensures { WideCutsTo bytes.now result }
{
    let mut out = Vec::new(alloc);
    let mut at = 0;
    let mut signed = true;
    loop {
        match step(&mut out, bytes, at, signed) {
            Ok(Some((next, sign))) => {
                at = next;
                signed = sign;
            }
            Ok(None) => return Ok(out),
            Err(error) => return Err(error),
        }
    }
}

/// The tokens of the text. The error is the first one from the left: `UnknownCharacter`,
/// `InvalidTextLiteral` or `IntOutOfRange` at its position, or `TextTooLong` at the 4,097th token. A text above
/// 65,536 bytes is `TextTooLong` at byte 65,536 before it is read.
pub fn tokens(alloc: Global, text: &str) -> Result<Vec<Token>, ReadError>
    ensures answers { WideTokensReturns text.now result }
    ensures long { text_limit < length text.now → result ≡ Err (TextTooLong text_limit) }
{
    let bytes = text.as_bytes();
    if bytes.len() > TEXT_LIMIT {
        return Err(ReadError::TextTooLong(TEXT_LIMIT));
    }
    cut(alloc, bytes)
}
