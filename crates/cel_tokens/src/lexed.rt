//! The front of a text.

ghost use Rattle.std.specs.Prelude.{◌≡◌, ◌≤◌, ◌<◌, ◌+◌, ℕ, List, [], length, drop, get_or, true, Some, IfOk, IfSome, OnErr};
ghost use Rattle.cel_tokens.specs.Bytes as bytes_of;
ghost use Rattle.cel_tokens.specs.Ints as ints;
ghost use Rattle.cel_tokens.specs.Texts as texts;
ghost use Rattle.cel_tokens.specs.Marks as marks;
ghost use Rattle.cel_tokens.specs.Lexed as fronts;
ghost use Rattle.cel_tokens.specs.Lexis.{TakesMemory};
ghost use Rattle.cel_tokens.specs.Shown.{lexed_view, IsWithin, EndsText, IsQuoted};
ghost use Rattle.cel_tokens.specs.Limits.{text_limit};

use crate::bytes::{between, is_digit_of, is_letter, name_len, tail};
use crate::int::{digit_begins, int_at, int_of};
use crate::kind::Kind;
use crate::literal::content;
use crate::mark::mark_at;
use std::alloc::{AllocError, Global};

/// The front of a text.
#[derive(Debug, Drop)]
pub enum Lexed {
    /// The end of the text.
    Over,
    /// Blanks and comments of this many bytes.
    Space(usize),
    /// A token of this many bytes.
    Word(usize, Kind),
    /// A text literal that does not end, or has an invalid escape.
    WrongText,
    /// An int outside 64 bits, with its digits at this offset.
    WideInt(usize),
    /// No token.
    Nothing,
}

/// Whether the byte is a quote.
fn is_quote(byte: u8) -> bool
    ensures { result ≡ texts.is_quote byte }
{
    byte == b'"' || byte == b'\''
}

/// Whether the byte is the prefix of a raw text literal.
fn is_raw_prefix(byte: u8) -> bool
    ensures { result ≡ texts.is_raw_prefix byte }
{
    byte == b'r' || byte == b'R'
}

/// Whether the text literal at the front is raw, and its quote.
fn opening(bytes: &[u8]) -> Option<(bool, u8)>
    ensures value { result ≡ texts.opening bytes.now }
    ensures quoted { IfSome result (λ x. IsQuoted bytes.now x.0 x.1) }
{
    let first = *bytes.first()?;
    if is_quote(first) {
        return Some((false, first));
    }
    let quote = *bytes.get(1)?;
    if is_raw_prefix(first) && is_quote(quote) {
        Some((true, quote))
    } else {
        None
    }
}

/// The number of bytes that open a text literal.
fn opening_len(raw: bool) -> usize
    ensures { result ≡ texts.opening_len raw }
{
    if raw { 2 } else { 1 }
}

/// The text literal at the front.
fn literal(alloc: Global, bytes: &[u8], raw: bool, quote: u8) -> Result<Lexed, AllocError>
    requires quoted { IsQuoted bytes.now raw quote }
    requires text { EndsText bytes.now }
    requires short { length bytes.now ≤ text_limit }
    ensures shown { IfOk result (λ f. lexed_view bytes.now f ≡ fronts.front_text (texts.opening_len raw) (texts.content raw quote 0 0 [] (drop (texts.opening_len raw) bytes.now))) }
    ensures within { IfOk result (λ f. IsWithin (length bytes.now) f) }
{
    let before = opening_len(raw);
    match content(alloc, tail(bytes, before), raw, quote)? {
        Some((len, text)) => Ok(Lexed::Word(before + len, Kind::Text(text))),
        None => Ok(Lexed::WrongText),
    }
}

/// The int whose digits are `before` bytes on.
#[tactic(auto, using(crate::proofs::Numbers::kept_int))]
fn int_front(minus: bool, before: usize, digits: &[u8]) -> Lexed
    requires digit { ints.digit_begins digits.now ≡ true }
    requires short { before ≤ text_limit }
    ensures shown { (bytes : List ℕ) → lexed_view bytes result ≡ fronts.front_int minus before digits.now }
    ensures within { (len : ℕ) → before + length digits.now ≤ len → IsWithin len result }
{
    let (len, value) = int_at(digits);
    match int_of(minus, value) {
        Some(int) => Lexed::Word(before + len, Kind::Int(int)),
        None => Lexed::WideInt(before),
    }
}

/// The number of bytes before the digits of a signed int.
fn before_digits(bytes: &[u8]) -> usize
    requires { 0 < length bytes.now }
    ensures value { result ≡ fronts.before_digits bytes.now }
    ensures within { result ≤ length bytes.now }
{
    between(tail(bytes, 1)) + 1
}

/// Whether a sign and its int are at the front. `first` is the first byte.
fn signed_int_begins(first: u8, bytes: &[u8]) -> bool
    requires { 0 < length bytes.now }
    ensures { result ≡ fronts.signed_int_begins first bytes.now }
{
    first == b'-' && digit_begins(tail(bytes, before_digits(bytes)))
}

/// The mark at the front.
fn mark_front(bytes: &[u8]) -> Lexed
    ensures shown { lexed_view bytes.now result ≡ fronts.front_mark (marks.mark_at bytes.now) }
    ensures within { IsWithin (length bytes.now) result }
{
    match mark_at(bytes) {
        Some((_, len)) => Lexed::Word(len, Kind::Mark),
        None => Lexed::Nothing,
    }
}

/// The name, int or mark at the front.
fn plain(bytes: &[u8], signed: bool) -> Lexed
    requires some { 0 < length bytes.now }
    requires short { length bytes.now ≤ text_limit }
    ensures shown { lexed_view bytes.now result ≡ fronts.front_plain signed (get_or bytes.now 0 0) bytes.now }
    ensures within { IsWithin (length bytes.now) result }
{
    let first = bytes[0];
    if is_letter(first) {
        return Lexed::Word(name_len(bytes), Kind::Name);
    }
    if is_digit_of(10, first) {
        return int_front(false, 0, bytes);
    }
    if signed && signed_int_begins(first, bytes) {
        let before = before_digits(bytes);
        return int_front(true, before, tail(bytes, before));
    }
    mark_front(bytes)
}

/// The front of the text. `signed`: a minus here may be the sign of an int.
#[tactic(auto, using(crate::proofs::Fronts::front_nil, crate::proofs::Fronts::front_is))]
pub fn front_of(alloc: Global, bytes: &[u8], signed: bool) -> Result<Lexed, AllocError>
    requires text { EndsText bytes.now }
    requires short { length bytes.now ≤ text_limit }
    ensures shown { IfOk result (λ f. lexed_view bytes.now f ≡ fronts.front signed bytes.now) }
    ensures within { IfOk result (λ f. IsWithin (length bytes.now) f) }
    ensures memory { OnErr result (TakesMemory signed bytes.now) }
{
    if bytes.is_empty() {
        return Ok(Lexed::Over);
    }
    let gap = between(bytes);
    if gap > 0 {
        return Ok(Lexed::Space(gap));
    }
    match opening(bytes) {
        Some((raw, quote)) => literal(alloc, bytes, raw, quote),
        None => Ok(plain(bytes, signed)),
    }
}
