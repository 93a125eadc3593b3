//! Ints, unsigned ints and doubles.

ghost use Rattle.std.specs.Prelude.{◌≡◌, ◌≤◌, ◌-◌, ◌^◌, min, length, IfSome, true};
ghost use Rattle.cel_tokens.specs.Ints as ints;
ghost use Rattle.wide_tokens.specs.Numbers as numbers;

use crate::bytes::{digit_value, digits_len, is_digit_of, tail};

/// What a number is.
#[derive(Clone, Copy, Debug, PartialEq, Eq)]
pub enum Number {
    Int,
    /// With `u` or `U` after its digits.
    Uint,
    /// With a fraction or an exponent.
    Double,
}

/// The number that the digits denote, capped at the greatest `u128`.
#[tactic(auto, using(cel_tokens::proofs::Numbers::number_empty, cel_tokens::proofs::Numbers::number_more))]
pub fn digits_value(digits: &[u8], base: u64) -> u128
    requires { 1 ≤ base }
    ensures { result ≡ min (ints.number base digits.now) (2 ^ 128 - 1) }
{
    let mut value: u128 = 0;
    let mut n = 0;
    while n < digits.len() {
        value = value
            .saturating_mul(base as u128)
            .saturating_add(digit_value(digits[n]) as u128);
        n += 1;
    }
    value
}

/// Whether a decimal digit is at the front.
fn digit_begins(bytes: &[u8]) -> bool
    ensures { result ≡ ints.digit_begins bytes.now }
{
    match bytes {
        [first, ..] => is_digit_of(10, *first),
        [] => false,
    }
}

/// Whether `0x` and a hex digit are at the front.
fn hex_begins(bytes: &[u8]) -> bool
    ensures { result ≡ ints.hex_begins bytes.now }
{
    match bytes {
        [zero, letter, first, ..] => *zero == b'0' && *letter == b'x' && is_digit_of(16, *first),
        _ => false,
    }
}

/// The length of the int at the front without its sign.
fn int_len(bytes: &[u8]) -> usize
    ensures len { result ≡ (ints.int_at bytes.now).0 }
    ensures within { result ≤ length bytes.now }
    ensures some { ints.digit_begins bytes.now ≡ true → 1 ≤ result }
{
    if hex_begins(bytes) {
        digits_len(tail(bytes, 2), 16) + 2
    } else {
        digits_len(bytes, 10)
    }
}

/// The value of the int at the front without its sign, capped at the greatest `u128`.
pub fn int_value(bytes: &[u8]) -> u128
    ensures { result ≡ min (ints.int_at bytes.now).1 (2 ^ 128 - 1) }
{
    if hex_begins(bytes) {
        let digits = tail(bytes, 2);
        digits_value(&digits[..digits_len(digits, 16)], 16)
    } else {
        digits_value(&bytes[..digits_len(bytes, 10)], 10)
    }
}

/// The length of a dot and the digits after it, or 0.
fn fraction_len(bytes: &[u8]) -> usize
    ensures len { result ≡ numbers.fraction_len bytes.now }
    ensures within { result ≤ length bytes.now }
{
    match bytes {
        [b'.', rest @ ..] if digit_begins(rest) => digits_len(rest, 10) + 1,
        _ => 0,
    }
}

/// The length of the sign at the front of an exponent's digits, or 0.
fn sign_len(bytes: &[u8]) -> usize
    ensures len { result ≡ numbers.sign_len bytes.now }
    ensures within { result ≤ length bytes.now }
{
    match bytes {
        [b'+' | b'-', ..] => 1,
        _ => 0,
    }
}

/// The length of an `e` or `E`, a sign if there is one, and the digits after it, or 0.
fn exponent_len(bytes: &[u8]) -> usize
    ensures len { result ≡ numbers.exponent_len bytes.now }
    ensures within { result ≤ length bytes.now }
{
    match bytes {
        [b'e' | b'E', rest @ ..] => {
            let sign = sign_len(rest);
            let digits = tail(rest, sign);
            if digit_begins(digits) {
                digits_len(digits, 10) + sign + 1
            } else {
                0
            }
        }
        _ => 0,
    }
}

/// The length of the double at the front, or 0.
fn double_len(bytes: &[u8]) -> usize
    ensures len { result ≡ numbers.double_len bytes.now }
    ensures within { result ≤ length bytes.now }
{
    let whole = digits_len(bytes, 10);
    let rest = tail(bytes, whole);
    let fraction = fraction_len(rest);
    let exponent = exponent_len(tail(rest, fraction));
    if fraction == 0 && (whole == 0 || exponent == 0) {
        0
    } else {
        whole + fraction + exponent
    }
}

/// Whether the suffix of an unsigned int is at the front.
fn suffix_begins(bytes: &[u8]) -> bool
    ensures { result ≡ numbers.suffix_begins bytes.now }
{
    matches!(bytes, [b'u' | b'U', ..])
}

/// The int at the front, or the unsigned one, with its length.
fn integral_at(bytes: &[u8]) -> (Number, usize)
    ensures value { result ≡ numbers.integral_at bytes.now }
    ensures within { result.1 ≤ length bytes.now }
    ensures some { ints.digit_begins bytes.now ≡ true → 1 ≤ result.1 }
{
    let len = int_len(bytes);
    if suffix_begins(tail(bytes, len)) {
        (Number::Uint, len + 1)
    } else {
        (Number::Int, len)
    }
}

/// The number at the front, with its length.
pub fn number_at(bytes: &[u8]) -> Option<(Number, usize)>
    ensures value { result ≡ numbers.number_at bytes.now }
    ensures within { IfSome result (λ x. (1 ≤ x.1) × (x.1 ≤ length bytes.now)) }
{
    let double = double_len(bytes);
    if double > 0 {
        Some((Number::Double, double))
    } else if digit_begins(bytes) {
        Some(integral_at(bytes))
    } else {
        None
    }
}

/// The int with this sign and absolute value, if it fits 64 bits.
pub fn int_of(minus: bool, value: u128) -> Option<i64>
    ensures { result ≡ ints.int_of minus value }
{
    let value = i128::try_from(value).ok()?;
    let int = if minus { -value } else { value };
    i64::try_from(int).ok()
}

/// The unsigned int with this value, if it fits 64 bits.
pub fn uint_of(value: u128) -> Option<u64>
    ensures { result ≡ numbers.uint_of value }
{
    u64::try_from(value).ok()
}
