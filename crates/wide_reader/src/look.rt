//! Lookahead: the front of the tokens.

ghost use Rattle.std.specs.Prelude.{◌≡◌, ◌<◌, ◌≤◌, ◌∷◌, length, true, false, Some, IfOk, IfSome, MatchOption, ◌↔◌, IsTrue, option_map};
ghost use Rattle.std.specs.Str.{IsUtf8};
ghost use Rattle.wide_tokens.specs.Token as word;
ghost use Rattle.wide_reader.specs.Look as looks;
ghost use Rattle.wide_reader.specs.Look.{words, WideIsNotNext, WideCloses, WideGoesOn};
ghost use Rattle.wide_reader.specs.Words as specs;
ghost use Rattle.cel_reader.specs.Words as names;
ghost use Rattle.wide_tokens.specs.Quoted.{is_quoted_name};
ghost use Rattle.wide_reader.specs.Tree.{view};
ghost use Rattle.wide_reader.specs.Starts.{Starts};
ghost use Rattle.wide_reader.specs.Prefixes.{WidePrefixes};
ghost use Rattle.wide_reader.specs.Shown.{word_view};

use crate::build;
use crate::closing::Closing;
use crate::level::Level;
use crate::name::{is_quoted_name, is_selector};
use crate::operator::{level_of, operator_mark, unary_mark};
use crate::wide::{Access, Wide};
use crate::word::{Word, first};
use cel_reader::{BinaryOperator, Literal, UnaryOperator, is_identifier};
use cel_tokens::Mark;
use std::alloc::{AllocError, Global};
use wide_tokens::Token;

/// Whether the word is this mark.
fn is_mark(found: Word, wanted: Mark) -> bool
    ensures { IsTrue result ↔ (word_view found.entry ≡ word.mark wanted) }
{
    match found {
        Word::Mark(mark) => mark == wanted,
        _ => false,
    }
}

/// The tokens after this mark, if it is first.
pub fn after<'a>(text: &'a [u8], tokens: &'a [Token], wanted: Mark) -> Option<&'a [Token]>
    ensures at { MatchOption result (WideIsNotNext (looks.at wanted) (words text.now tokens.now)) (λ rest. words text.now tokens.now ≡ word.mark wanted ∷ words text.now rest.now) }
    ensures shorter { IfSome result (λ rest. length rest.now < length tokens.now) }
{
    let (found, rest) = first(text, tokens)?;
    if is_mark(found, wanted) {
        Some(rest)
    } else {
        None
    }
}

/// The binary operator of a word, if any.
fn operator_of(found: Word) -> Option<BinaryOperator>
    ensures { result ≡ specs.operator_of (word_view found.entry) }
{
    match found {
        Word::Name(b"in") => Some(BinaryOperator::In),
        Word::Mark(mark) => operator_mark(mark),
        _ => None,
    }
}

/// The binary operator of this level, if one is first, and the tokens after it.
pub fn operator_at<'a>(
    text: &'a [u8],
    tokens: &'a [Token],
    level: Level,
) -> Option<(BinaryOperator, &'a [Token])>
    ensures at { MatchOption result
        (WideIsNotNext (looks.operator level) (words text.now tokens.now))
        (λ x. (w : word.WideWord) × (specs.operator_of w ≡ Some x.0) × (specs.level_of x.0 ≡ level)
        × (words text.now tokens.now ≡ w ∷ words text.now x.1.now)) }
    ensures shorter { IfSome result (λ x. length x.1.now < length tokens.now) }
{
    let (found, rest) = first(text, tokens)?;
    let operator = operator_of(found)?;
    if level_of(operator) == level {
        Some((operator, rest))
    } else {
        None
    }
}

/// The unary operator, if one is first, and the tokens after it.
pub fn prefix_at<'a>(text: &'a [u8], tokens: &'a [Token]) -> Option<(UnaryOperator, &'a [Token])>
    ensures at { MatchOption result
        (WideIsNotNext (looks.at Mark.Not) (words text.now tokens.now)
        × WideIsNotNext (looks.at Mark.Minus) (words text.now tokens.now))
        (λ x. words text.now tokens.now ≡ word.mark (names.unary_mark x.0) ∷ words text.now x.1.now) }
    ensures shorter { IfSome result (λ x. length x.1.now < length tokens.now) }
{
    if let Some(rest) = after(text, tokens, Mark::Not) {
        return Some((UnaryOperator::Not, rest));
    }
    let rest = after(text, tokens, Mark::Minus)?;
    Some((UnaryOperator::Negate, rest))
}

/// The field or method name, if one is first, and the tokens after it.
#[tactic(auto, using(crate::proofs::Names::selector_utf8))]
pub fn selector_at<'a>(text: &'a [u8], tokens: &'a [Token]) -> Option<(&'a [u8], &'a [Token])>
    ensures at { MatchOption result
        (WideIsNotNext (looks.named names.is_selector) (words text.now tokens.now))
        (λ x. (words text.now tokens.now ≡ word.name x.0.now ∷ words text.now x.1.now)
        × (names.is_selector x.0.now ≡ true)) }
    ensures utf8 { IfSome result (λ x. IsUtf8 x.0.now) }
    ensures shorter { IfSome result (λ x. length x.1.now < length tokens.now) }
{
    let (found, rest) = first(text, tokens)?;
    match found {
        Word::Name(name) if is_selector(name) => Some((name, rest)),
        _ => None,
    }
}

/// The identifier, if one is first, and the tokens after it.
#[tactic(auto, using(crate::proofs::Names::identifier_utf8))]
pub fn identifier_at<'a>(text: &'a [u8], tokens: &'a [Token]) -> Option<(&'a [u8], &'a [Token])>
    ensures at { MatchOption result
        (WideIsNotNext (looks.named names.is_identifier) (words text.now tokens.now))
        (λ x. (words text.now tokens.now ≡ word.name x.0.now ∷ words text.now x.1.now)
        × (names.is_identifier x.0.now ≡ true)) }
    ensures utf8 { IfSome result (λ x. IsUtf8 x.0.now) }
    ensures shorter { IfSome result (λ x. length x.1.now < length tokens.now) }
{
    let (found, rest) = first(text, tokens)?;
    match found {
        Word::Name(name) if is_identifier(name) => Some((name, rest)),
        _ => None,
    }
}

/// The name in back quotes, if one is first, and the tokens after it.
#[tactic(auto, using(crate::proofs::Names::quoted_utf8))]
pub fn quoted_at<'a>(text: &'a [u8], tokens: &'a [Token]) -> Option<(&'a [u8], &'a [Token])>
    ensures at { MatchOption result
        (WideIsNotNext looks.back_quoted (words text.now tokens.now))
        (λ x. (words text.now tokens.now ≡ word.quoted x.0.now ∷ words text.now x.1.now)
        × (is_quoted_name x.0.now ≡ true)) }
    ensures utf8 { IfSome result (λ x. IsUtf8 x.0.now) }
    ensures shorter { IfSome result (λ x. length x.1.now < length tokens.now) }
{
    let (found, rest) = first(text, tokens)?;
    match found {
        Word::Quoted(name) if is_quoted_name(name) => Some((name, rest)),
        _ => None,
    }
}

/// The literal that a name is, if any.
fn named_literal(name: &[u8]) -> Option<Wide>
    ensures { option_map view result ≡ specs.literal_of (word.name name.now) }
{
    if name == b"true".as_slice() {
        Some(build::literal(Literal::Bool(true)))
    } else if name == b"false".as_slice() {
        Some(build::literal(Literal::Bool(false)))
    } else if name == b"null".as_slice() {
        Some(build::literal(Literal::Null))
    } else {
        None
    }
}

/// The literal of a word, if any. Bytes and doubles are read as the empty text.
fn literal_of(alloc: Global, found: Word) -> Result<Option<Wide>, AllocError>
    ensures { IfOk result (λ o. option_map view o ≡ specs.literal_of (word_view found.entry)) }
{
    match found {
        Word::Name(name) => Ok(named_literal(name)),
        Word::Int(value) => Ok(Some(build::literal(Literal::Int(value)))),
        Word::Uint(value) => Ok(Some(Wide::Uint(value))),
        Word::Text(said) => {
            let said = String::from_str(alloc, said)?;
            Ok(Some(build::literal(Literal::Text(said))))
        }
        Word::Bytes | Word::Double => {
            Ok(Some(build::literal(Literal::Text(String::new(alloc)))))
        }
        Word::Quoted(_) | Word::Mark(_) => Ok(None),
    }
}

/// The literal, if one is first, and the tokens after it.
pub fn literal_at<'a>(
    alloc: Global,
    text: &'a [u8],
    tokens: &'a [Token],
) -> Result<Option<(Wide, &'a [Token])>, AllocError>
    ensures at { IfOk result (λ o. MatchOption o
        (WideIsNotNext looks.constant (words text.now tokens.now))
        (λ x. (w : word.WideWord) × (words text.now tokens.now ≡ w ∷ words text.now x.1.now)
        × (specs.literal_of w ≡ Some (view x.0)))) }
    ensures shorter { IfOk result (λ o. IfSome o (λ x. length x.1.now < length tokens.now)) }
{
    let Some((found, rest)) = first(text, tokens) else {
        return Ok(None);
    };
    match literal_of(alloc, found)? {
        Some(literal) => Ok(Some((literal, rest))),
        None => Ok(None),
    }
}

/// Whether a question mark is first, and the tokens after it.
pub fn access_at<'a>(text: &'a [u8], tokens: &'a [Token]) -> (Access, &'a [Token])
    ensures at { Starts result.0 (words text.now tokens.now) (words text.now result.1.now) }
    ensures within { length result.1.now ≤ length tokens.now }
{
    match after(text, tokens, Mark::Question) {
        Some(rest) => (Access::Optional, rest),
        None => (Access::Plain, tokens),
    }
}

/// The tokens after the list's end, if it is first.
pub fn end_at<'a>(text: &'a [u8], tokens: &'a [Token], closing: Closing) -> Option<&'a [Token]>
    ensures at { MatchOption result (WideGoesOn closing (words text.now tokens.now)) (λ rest. WideCloses closing (words text.now tokens.now) (words text.now rest.now)) }
    ensures shorter { IfSome result (λ rest. length rest.now < length tokens.now) }
{
    if let Some(rest) = after(text, tokens, closing.mark()) {
        return Some(rest);
    }
    if !closing.takes_comma() {
        return None;
    }
    let rest = after(text, tokens, Mark::Comma)?;
    after(text, rest, closing.mark())
}

/// Whether the operator is there an odd number of times, with one before these tokens, and the tokens after it.
pub fn prefixes<'a>(
    text: &'a [u8],
    tokens: &'a [Token],
    operator: UnaryOperator,
) -> (bool, &'a [Token])
    ensures at { WidePrefixes operator true result.0 (words text.now tokens.now) (words text.now result.1.now) }
    ensures within { length result.1.now ≤ length tokens.now }
{
    let mut odd = true;
    let mut rest = tokens;
    while let Some(behind) = after(text, rest, unary_mark(operator)) {
        odd = !odd;
        rest = behind;
    }
    (odd, rest)
}
