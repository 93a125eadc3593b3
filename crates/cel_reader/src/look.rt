//! Lookahead: the front of the tokens.

ghost use Rattle.std.specs.Prelude.{◌≡◌, ◌<◌, ◌≤◌, ◌∷◌, length, true, false, Some, IfOk, IfSome, MatchOption, ◌↔◌, IsTrue, option_map};
ghost use Rattle.cel_tokens.specs.Token as word;
ghost use Rattle.cel_reader.specs.Look as looks;
ghost use Rattle.cel_reader.specs.Look.{words, IsNotNext, Closes, GoesOn};
ghost use Rattle.cel_reader.specs.Words as specs;
ghost use Rattle.cel_reader.specs.Tree.{literal_view};
ghost use Rattle.cel_reader.specs.Prefixes.{Prefixes};
ghost use Rattle.cel_reader.specs.Shown.{word_view};

use crate::closing::Closing;
use crate::level::Level;
use crate::literal::Literal;
use crate::name::{is_identifier, is_selector};
use crate::operator::{BinaryOperator, UnaryOperator};
use crate::role::{Role, role_of};
use crate::word::{Word, first};
use cel_tokens::{Mark, Token};
use std::alloc::{AllocError, Global};

/// Whether the word is this mark.
fn is_mark(found: Word, wanted: Mark) -> bool
    ensures { IsTrue result ↔ (word_view found.entry ≡ word.mark wanted) }
{
    match found {
        Word::Mark(mark) => mark == wanted,
        _ => false,
    }
}

/// The tokens after this mark, if it is first.
pub fn after<'a>(text: &'a [u8], tokens: &'a [Token], wanted: Mark) -> Option<&'a [Token]>
    ensures at { MatchOption result (IsNotNext (looks.at wanted) (words text.now tokens.now)) (λ rest. words text.now tokens.now ≡ word.mark wanted ∷ words text.now rest.now) }
    ensures shorter { IfSome result (λ rest. length rest.now < length tokens.now) }
{
    let (found, rest) = first(text, tokens)?;
    if is_mark(found, wanted) {
        Some(rest)
    } else {
        None
    }
}

/// The binary operator of a mark, if any.
fn operator_mark(mark: Mark) -> Option<BinaryOperator>
    ensures { result ≡ specs.operator_mark mark }
{
    match mark {
        Mark::Or => Some(BinaryOperator::Or),
        Mark::And => Some(BinaryOperator::And),
        Mark::Less => Some(BinaryOperator::Less),
        Mark::LessEqual => Some(BinaryOperator::LessEqual),
        Mark::GreaterEqual => Some(BinaryOperator::GreaterEqual),
        Mark::Greater => Some(BinaryOperator::Greater),
        Mark::Equal => Some(BinaryOperator::Equal),
        Mark::NotEqual => Some(BinaryOperator::NotEqual),
        Mark::Plus => Some(BinaryOperator::Add),
        Mark::Minus => Some(BinaryOperator::Subtract),
        Mark::Star => Some(BinaryOperator::Multiply),
        Mark::Slash => Some(BinaryOperator::Divide),
        Mark::Percent => Some(BinaryOperator::Remainder),
        _ => None,
    }
}

/// The binary operator of a word, if any.
#[tactic(auto, unfolding(crate::specs::Words::role_of))]
fn operator_of(found: Word) -> Option<BinaryOperator>
    ensures { result ≡ specs.operator_of (word_view found.entry) }
{
    match found {
        Word::Name(name) => match role_of(name) {
            Role::In => Some(BinaryOperator::In),
            _ => None,
        },
        Word::Mark(mark) => operator_mark(mark),
        Word::Int(_) | Word::Text(_) => None,
    }
}

/// The binary operator of this level, if one is first, and the tokens after it.
pub fn operator_at<'a>(
    text: &'a [u8],
    tokens: &'a [Token],
    level: Level,
) -> Option<(BinaryOperator, &'a [Token])>
    ensures at { MatchOption result
        (IsNotNext (looks.operator level) (words text.now tokens.now))
        (λ x. (w : word.Word) × (specs.operator_of w ≡ Some x.0) × (specs.level_of x.0 ≡ level)
        × (words text.now tokens.now ≡ w ∷ words text.now x.1.now)) }
    ensures shorter { IfSome result (λ x. length x.1.now < length tokens.now) }
{
    let (found, rest) = first(text, tokens)?;
    let operator = operator_of(found)?;
    if operator.level() == level {
        Some((operator, rest))
    } else {
        None
    }
}

/// The unary operator, if one is first, and the tokens after it.
pub fn prefix_at<'a>(text: &'a [u8], tokens: &'a [Token]) -> Option<(UnaryOperator, &'a [Token])>
    ensures at { MatchOption result
        (IsNotNext (looks.at Mark.Not) (words text.now tokens.now)
        × IsNotNext (looks.at Mark.Minus) (words text.now tokens.now))
        (λ x. words text.now tokens.now ≡ word.mark (specs.unary_mark x.0) ∷ words text.now x.1.now) }
    ensures shorter { IfSome result (λ x. length x.1.now < length tokens.now) }
{
    if let Some(rest) = after(text, tokens, Mark::Not) {
        return Some((UnaryOperator::Not, rest));
    }
    let rest = after(text, tokens, Mark::Minus)?;
    Some((UnaryOperator::Negate, rest))
}

/// The field or method name, if one is first, and the tokens after it.
pub fn selector_at<'a>(text: &'a [u8], tokens: &'a [Token]) -> Option<(&'a [u8], &'a [Token])>
    ensures at { MatchOption result
        (IsNotNext (looks.named specs.is_selector) (words text.now tokens.now))
        (λ x. (words text.now tokens.now ≡ word.name x.0.now ∷ words text.now x.1.now)
        × (specs.is_selector x.0.now ≡ true)) }
    ensures shorter { IfSome result (λ x. length x.1.now < length tokens.now) }
{
    let (found, rest) = first(text, tokens)?;
    match found {
        Word::Name(name) if is_selector(name) => Some((name, rest)),
        _ => None,
    }
}

/// The identifier, if one is first, and the tokens after it.
pub fn identifier_at<'a>(text: &'a [u8], tokens: &'a [Token]) -> Option<(&'a [u8], &'a [Token])>
    ensures at { MatchOption result
        (IsNotNext (looks.named specs.is_identifier) (words text.now tokens.now))
        (λ x. (words text.now tokens.now ≡ word.name x.0.now ∷ words text.now x.1.now)
        × (specs.is_identifier x.0.now ≡ true)) }
    ensures shorter { IfSome result (λ x. length x.1.now < length tokens.now) }
{
    let (found, rest) = first(text, tokens)?;
    match found {
        Word::Name(name) if is_identifier(name) => Some((name, rest)),
        _ => None,
    }
}

/// The literal of a word, if any.
#[tactic(auto, unfolding(crate::specs::Words::role_of))]
fn literal_of(alloc: Global, found: Word) -> Result<Option<Literal>, AllocError>
    ensures { IfOk result (λ o. option_map literal_view o ≡ specs.literal_of (word_view found.entry)) }
{
    match found {
        Word::Name(name) => Ok(match role_of(name) {
            Role::True => Some(Literal::Bool(true)),
            Role::False => Some(Literal::Bool(false)),
            Role::Null => Some(Literal::Null),
            _ => None,
        }),
        Word::Int(value) => Ok(Some(Literal::Int(value))),
        Word::Text(said) => Ok(Some(Literal::Text(String::from_str(alloc, said)?))),
        Word::Mark(_) => Ok(None),
    }
}

/// The literal, if one is first, and the tokens after it.
pub fn literal_at<'a>(
    alloc: Global,
    text: &'a [u8],
    tokens: &'a [Token],
) -> Result<Option<(Literal, &'a [Token])>, AllocError>
    ensures at { IfOk result (λ o. MatchOption o
        (IsNotNext looks.constant (words text.now tokens.now))
        (λ x. (w : word.Word) × (words text.now tokens.now ≡ w ∷ words text.now x.1.now)
        × (specs.literal_of w ≡ Some (literal_view x.0)))) }
    ensures shorter { IfOk result (λ o. IfSome o (λ x. length x.1.now < length tokens.now)) }
{
    let Some((found, rest)) = first(text, tokens) else {
        return Ok(None);
    };
    match literal_of(alloc, found)? {
        Some(literal) => Ok(Some((literal, rest))),
        None => Ok(None),
    }
}

/// The tokens after the list's end, if it is first.
pub fn end_at<'a>(text: &'a [u8], tokens: &'a [Token], closing: Closing) -> Option<&'a [Token]>
    ensures at { MatchOption result (GoesOn closing (words text.now tokens.now)) (λ rest. Closes closing (words text.now tokens.now) (words text.now rest.now)) }
    ensures shorter { IfSome result (λ rest. length rest.now < length tokens.now) }
{
    if let Some(rest) = after(text, tokens, closing.mark()) {
        return Some(rest);
    }
    if !closing.takes_comma() {
        return None;
    }
    let rest = after(text, tokens, Mark::Comma)?;
    after(text, rest, closing.mark())
}

/// How many times the operator is repeated at the front, and the tokens after it.
pub fn prefixes<'a>(
    text: &'a [u8],
    tokens: &'a [Token],
    operator: UnaryOperator,
) -> (usize, &'a [Token])
    ensures at { Prefixes operator result.0 (words text.now tokens.now) (words text.now result.1.now) }
    ensures within { length result.1.now ≤ length tokens.now }
{
    let mut count = 0;
    let mut rest = tokens;
    while let Some(behind) = after(text, rest, operator.mark()) {
        count += 1;
        rest = behind;
    }
    (count, rest)
}
