//! Escapes of text literals.

ghost use Rattle.std.specs.Prelude.{◌≡◌, ◌≤◌, ◌^◌, ◌-◌, ◌<◌, ℕ, get_or, min, length, IfSome, option_map};
ghost use Rattle.std.specs.Char.{IsScalar};
ghost use Rattle.cel_tokens.specs.Texts as texts;

use crate::bytes::{digits_len, tail};
use crate::number::digits_value;

/// The number that `count` digits at the front denote, capped at the greatest `u128`.
#[tactic(auto, using(cel_tokens::proofs::EscapeDigits::too_short))]
fn digits(bytes: &[u8], base: u64, count: usize) -> Option<u128>
    requires { 1 ≤ base }
    ensures value { result ≡ option_map (λ n. min n (2 ^ 128 - 1)) (texts.digits base count bytes.now) }
    ensures within { IfSome result (λ _. count ≤ length bytes.now) }
    ensures ascii { IfSome result (λ _. (i : ℕ) → i < count → base ≤ 16 → get_or bytes.now i 0 < 128) }
{
    if bytes.len() < count {
        return None;
    }
    let front = &bytes[..count];
    if digits_len(front, base) == count {
        Some(digits_value(front, base))
    } else {
        None
    }
}

/// The code point with this number.
#[tactic(auto, using(cel_tokens::proofs::EscapeDigits::scalar_is))]
fn code_point(number: u128) -> Option<char>
    ensures value { result ≡ texts.code_point number }
    ensures scalar { IfSome result (λ c. IsScalar c) }
{
    if number > 0x10_ffff {
        return None;
    }
    char::from_u32(number as u32)
}

/// The code point that `count` digits at the front denote, and `len`, the length of the escape.
#[tactic(auto, using(crate::proofs::Kept::kept_code))]
fn numeric(bytes: &[u8], base: u64, count: usize, len: usize) -> Option<(char, usize)>
    requires { 1 ≤ base }
    ensures value { result ≡ texts.numeric base count len bytes.now }
    ensures within { IfSome result (λ x. (x.1 ≡ len) × (count ≤ length bytes.now)) }
    ensures ascii { IfSome result (λ _. (i : ℕ) → i < count → base ≤ 16 → get_or bytes.now i 0 < 128) }
    ensures scalar { IfSome result (λ x. IsScalar x.0) }
{
    let number = digits(bytes, base, count)?;
    let code = code_point(number)?;
    Some((code, len))
}

/// The code point of a one-byte escape.
fn simple(byte: u8) -> Option<(char, usize)>
    ensures value { result ≡ texts.simple byte }
    ensures within { IfSome result (λ x. x.1 ≡ 1) }
    ensures ascii { IfSome result (λ _. byte < 128) }
    ensures scalar { IfSome result (λ x. IsScalar x.0) }
{
    match byte {
        b'a' => Some(('\x07', 1)),
        b'b' => Some(('\x08', 1)),
        b'f' => Some(('\x0c', 1)),
        b'n' => Some(('\n', 1)),
        b'r' => Some(('\r', 1)),
        b't' => Some(('\t', 1)),
        b'v' => Some(('\x0b', 1)),
        b'\\' | b'?' | b'"' | b'\'' | b'`' => Some((byte as char, 1)),
        _ => None,
    }
}

/// The escape after a backslash: its code point, and its length in bytes.
#[tactic(auto, unfolding(cel_tokens::specs::Texts::escape))]
pub fn escape(bytes: &[u8]) -> Option<(char, usize)>
    ensures value { result ≡ texts.escape bytes.now }
    ensures within { IfSome result (λ x. (1 ≤ x.1) × (x.1 ≤ length bytes.now)) }
    ensures ascii { IfSome result (λ x. get_or bytes.now (x.1 - 1) 0 < 128) }
    ensures scalar { IfSome result (λ x. IsScalar x.0) }
{
    let first = *bytes.first()?;
    match first {
        b'x' | b'X' => numeric(tail(bytes, 1), 16, 2, 3),
        b'u' => numeric(tail(bytes, 1), 16, 4, 5),
        b'U' => numeric(tail(bytes, 1), 16, 8, 9),
        b'0'..=b'3' => numeric(bytes, 8, 3, 3),
        _ => simple(first),
    }
}
