//! The front of a text.

ghost use Rattle.std.specs.Prelude.{◌≡◌, ◌≤◌, ◌<◌, ◌+◌, ℕ, List, [], length, drop, get_or, true, Some, IfOk, IfSome, OnErr};
ghost use Rattle.cel_tokens.specs.Bytes as bytes_of;
ghost use Rattle.cel_tokens.specs.Ints as ints;
ghost use Rattle.cel_tokens.specs.Marks as marks;
ghost use Rattle.cel_tokens.specs.Limits.{text_limit};
ghost use Rattle.wide_tokens.specs.Texts as texts;
ghost use Rattle.wide_tokens.specs.Numbers as numbers;
ghost use Rattle.wide_tokens.specs.Quoted as quoted;
ghost use Rattle.wide_tokens.specs.Lexed as fronts;
ghost use Rattle.wide_tokens.specs.Lexis.{WideTakesMemory};
ghost use Rattle.wide_tokens.specs.Shown.{lexed_view, WideIsWithin, WideEndsText};

use crate::bytes::{between, is_letter, name_len, quoted_len, tail};
use crate::content::content;
use crate::kind::Kind;
use crate::mark::mark_at;
use crate::number::{Number, int_of, int_value, number_at, uint_of};
use crate::opening::{Opening, opening_at};
use std::alloc::{AllocError, Global};

/// The front of a text.
#[derive(Debug, Drop)]
pub enum Lexed {
    /// The end of the text.
    Over,
    /// Blanks and comments of this many bytes.
    Space(usize),
    /// A token of this many bytes.
    Word(usize, Kind),
    /// A text literal that does not end, or has an invalid escape.
    WrongText,
    /// An int outside 64 bits, with its digits at this offset.
    WideInt(usize),
    /// No token.
    Nothing,
}

/// The text literal at the front.
fn literal(alloc: Global, bytes: &[u8], opening: Opening) -> Result<Lexed, AllocError>
    requires opened { texts.IsOpened bytes.now opening }
    requires text { WideEndsText bytes.now }
    requires short { length bytes.now ≤ text_limit }
    ensures shown { IfOk result (λ f. lexed_view bytes.now f ≡ fronts.front_text opening (texts.content opening 0 0 [] (drop (texts.opening_len opening) bytes.now))) }
    ensures within { IfOk result (λ f. WideIsWithin (length bytes.now) f) }
{
    let before = opening.len();
    match content(alloc, tail(bytes, before), opening)? {
        Some((len, text)) => {
            let kind = if opening.bytes {
                Kind::Bytes
            } else {
                Kind::Text(text)
            };
            Ok(Lexed::Word(before + len, kind))
        }
        None => Ok(Lexed::WrongText),
    }
}

/// The int with its digits `before` bytes on and this length.
#[tactic(auto, using(crate::proofs::Kept::kept_int))]
fn int_front(minus: bool, before: usize, len: usize, digits: &[u8]) -> Lexed
    requires short { before + len ≤ text_limit }
    requires some { 1 ≤ len }
    ensures shown { (bytes : List ℕ) → lexed_view bytes result ≡ fronts.int_front before len (ints.int_of minus (ints.int_at digits.now).1) }
    ensures within { (most : ℕ) → before + len ≤ most → WideIsWithin most result }
{
    match int_of(minus, int_value(digits)) {
        Some(int) => Lexed::Word(before + len, Kind::Int(int)),
        None => Lexed::WideInt(before),
    }
}

/// The unsigned int of this length at the front.
#[tactic(auto, using(crate::proofs::Kept::kept_uint))]
fn uint_front(len: usize, digits: &[u8]) -> Lexed
    requires some { 1 ≤ len }
    ensures shown { (bytes : List ℕ) → lexed_view bytes result ≡ fronts.uint_front len (numbers.uint_of (ints.int_at digits.now).1) }
    ensures within { (most : ℕ) → len ≤ most → WideIsWithin most result }
{
    match uint_of(int_value(digits)) {
        Some(value) => Lexed::Word(len, Kind::Uint(value)),
        None => Lexed::WideInt(0),
    }
}

/// The number of this kind and length at the front.
fn number_front(number: Number, len: usize, bytes: &[u8]) -> Lexed
    requires short { len ≤ text_limit }
    requires some { 1 ≤ len }
    requires within { len ≤ length bytes.now }
    ensures shown { lexed_view bytes.now result ≡ fronts.number_front number len bytes.now }
    ensures within { WideIsWithin (length bytes.now) result }
{
    match number {
        Number::Int => int_front(false, 0, len, bytes),
        Number::Uint => uint_front(len, bytes),
        Number::Double => Lexed::Word(len, Kind::Double),
    }
}

/// The number of bytes before the digits of a signed int.
fn before_digits(bytes: &[u8]) -> usize
    requires { 0 < length bytes.now }
    ensures value { result ≡ fronts.before_digits bytes.now }
    ensures within { result ≤ length bytes.now }
{
    between(tail(bytes, 1)) + 1
}

/// The length of the int after the sign at the front, if that is followed by one.
fn signed_len(bytes: &[u8]) -> Option<usize>
    requires { 0 < length bytes.now }
    ensures value { result ≡ fronts.signed_len bytes.now }
    ensures within { IfSome result (λ n. (1 ≤ n) × (fronts.before_digits bytes.now + n ≤ length bytes.now)) }
{
    if bytes[0] != b'-' {
        return None;
    }
    match number_at(tail(bytes, before_digits(bytes))) {
        Some((Number::Int, len)) => Some(len),
        _ => None,
    }
}

/// The name in back quotes, or the mark, at the front.
fn other(bytes: &[u8]) -> Lexed
    requires some { 0 < length bytes.now }
    requires short { length bytes.now ≤ text_limit }
    ensures shown { lexed_view bytes.now result ≡ fronts.front_other bytes.now }
    ensures within { WideIsWithin (length bytes.now) result }
{
    if let Some(len) = quoted_at(bytes) {
        return Lexed::Word(len + 2, Kind::Quoted);
    }
    match mark_at(bytes) {
        Some((_, len)) => Lexed::Word(len, Kind::Mark),
        None => Lexed::Nothing,
    }
}

/// The number of bytes of the name in back quotes at the front.
fn quoted_at(bytes: &[u8]) -> Option<usize>
    ensures value { result ≡ quoted.quoted_at bytes.now }
    ensures within { IfSome result (λ n. (1 ≤ n) × (n + 2 ≤ length bytes.now)) }
{
    match bytes {
        [b'`', rest @ ..] => {
            let len = quoted_len(rest);
            if len > 0 && len < rest.len() && rest[len] == b'`' {
                Some(len)
            } else {
                None
            }
        }
        _ => None,
    }
}

/// The name, number or mark at the front. `signed`: a minus here may be the sign of an int.
fn plain(bytes: &[u8], signed: bool) -> Lexed
    requires some { 0 < length bytes.now }
    requires short { length bytes.now ≤ text_limit }
    ensures shown { lexed_view bytes.now result ≡ fronts.front_plain signed (get_or bytes.now 0 0) bytes.now }
    ensures within { WideIsWithin (length bytes.now) result }
{
    if is_letter(bytes[0]) {
        return Lexed::Word(name_len(bytes), Kind::Name);
    }
    if let Some((number, len)) = number_at(bytes) {
        return number_front(number, len, bytes);
    }
    if signed {
        if let Some(len) = signed_len(bytes) {
            let before = before_digits(bytes);
            return int_front(true, before, len, tail(bytes, before));
        }
    }
    other(bytes)
}

/// The front of the text. `signed`: a minus here may be the sign of an int.
#[tactic(auto, using(crate::proofs::Fronts::front_nil, crate::proofs::Fronts::front_is))]
pub fn front_of(alloc: Global, bytes: &[u8], signed: bool) -> Result<Lexed, AllocError>
    requires text { WideEndsText bytes.now }
    requires short { length bytes.now ≤ text_limit }
    ensures shown { IfOk result (λ f. lexed_view bytes.now f ≡ fronts.front signed bytes.now) }
    ensures within { IfOk result (λ f. WideIsWithin (length bytes.now) f) }
    ensures memory { OnErr result (WideTakesMemory signed bytes.now) }
{
    if bytes.is_empty() {
        return Ok(Lexed::Over);
    }
    let gap = between(bytes);
    if gap > 0 {
        return Ok(Lexed::Space(gap));
    }
    match opening_at(bytes) {
        Some(opening) => literal(alloc, bytes, opening),
        None => Ok(plain(bytes, signed)),
    }
}
