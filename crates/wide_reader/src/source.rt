//! Parses a whole text.

ghost use Rattle.std.specs.Prelude.{◌≡◌, ◌<◌, length, map, Err};
ghost use Rattle.cel_tokens.specs.declared.read_error.ReadError.TheVariants.{TextTooLong};
ghost use Rattle.cel_tokens.specs.Limits.{text_limit};
ghost use Rattle.wide_tokens.specs.Token.{token_view};
ghost use Rattle.wide_reader.specs.Place.{unsupported_in, wide_refused_at};
ghost use Rattle.wide_reader.specs.Answers.{WideReadReturns, WideParseReturns, tested, unless_fault};
ghost use Rattle.wide_reader.specs.Faults.{fault};
ghost use Rattle.wide_reader.specs.Tree.{view};
ghost use Rattle.wide_reader.specs.declared.wide_error.WideReadError.TheVariants.{Text};

use crate::faults::fault;
use crate::limits::OPEN_LIMIT;
use crate::place::placed;
use crate::reader::expression;
use crate::refusal::{Refusal, misfit};
use crate::wide::Wide;
use crate::wide_error::WideReadError;
use crate::word::first;
use cel_tokens::ReadError;
use std::alloc::Global;
use wide_tokens::{Kind, Token, tokens};

/// The error of the first of these tokens that is bytes or a double.
fn unsupported(tokens: &[Token]) -> Option<WideReadError>
    ensures { result ≡ unsupported_in tokens.now }
{
    for token in tokens {
        match token.kind {
            Kind::Bytes => return Some(WideReadError::Bytes(token.place)),
            Kind::Double => return Some(WideReadError::Double(token.place)),
            _ => {}
        }
    }
    None
}

/// The error of the tokens, unless bytes or a double is before it.
fn refused(text: &[u8], tokens: &[Token], refusal: Refusal) -> WideReadError
    ensures { result ≡ wide_refused_at (length text.now) tokens.now refusal }
{
    let left = match refusal {
        Refusal::Misfit(left) | Refusal::Deep(left) => left,
        Refusal::Memory => return WideReadError::Text(ReadError::Memory),
    };
    match unsupported(&tokens[..tokens.len().saturating_sub(left)]) {
        Some(error) => error,
        None => WideReadError::Text(placed(text, tokens, refusal)),
    }
}

/// The expression that all of the tokens form.
fn whole(alloc: Global, text: &[u8], tokens: &[Token]) -> Result<Wide, WideReadError>
    ensures { WideParseReturns (length text.now) (map (token_view text.now) tokens.now) result }
{
    // A text without tokens is refused before anything is allocated.
    let Some(_) = first(text, tokens) else {
        return Err(refused(text, tokens, misfit(tokens)));
    };
    let read = expression(alloc, text, tokens, OPEN_LIMIT);
    match read {
        Ok((tree, rest)) => match first(text, rest) {
            None => match unsupported(tokens) {
                None => Ok(tree),
                Some(error) => {
                    drop(tree);
                    Err(error)
                }
            },
            Some(_) => {
                drop(tree);
                Err(refused(text, tokens, misfit(rest)))
            }
        },
        Err(refusal) => {
            drop(read);
            Err(refused(text, tokens, refusal))
        }
    }
}

/// The expression, unless a macro in it is invalid.
fn unless_fault(tree: Wide) -> Result<Wide, WideReadError>
    ensures { result ≡ unless_fault tree (fault (view tree)) }
{
    match fault(&tree) {
        None => Ok(tree),
        Some(found) => {
            drop(tree);
            Err(WideReadError::Macro(found))
        }
    }
}

/// The expression that was read, unless a macro in it is invalid.
fn tested(read: Result<Wide, WideReadError>) -> Result<Wide, WideReadError>
    ensures { result ≡ tested read }
{
    match read {
        Ok(tree) => unless_fault(tree),
        Err(error) => Err(error),
    }
}

/// The expression of the text. The error is `Text` with `UnknownCharacter`, `InvalidTextLiteral`, `IntOutOfRange` or
/// `TextTooLong` if the text has no tokens. Otherwise it is the leftmost of these: `Bytes` or `Double` at bytes or a
/// double where a literal fits; `Text` with `UnexpectedToken` at the first token that no expression allows there, or at
/// the text's end; `Text` with `TooManyOpen` at a bracket or a question mark that fits but would be the 101st open one.
/// If there is none of these, it is `Macro` with the fault of the first invalid macro, a macro before its parts.
pub fn read(alloc: Global, text: &str) -> Result<Wide, WideReadError>
    ensures answers { WideReadReturns text.now result }
    ensures long { text_limit < length text.now → result ≡ Err (Text (TextTooLong text_limit)) }
{
    let tokens = tokens(alloc, text)?;
    let read = whole(alloc, text.as_bytes(), &tokens);
    drop(tokens);
    tested(read)
}
