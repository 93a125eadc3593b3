//! Int literals.

ghost use Rattle.std.specs.Prelude.{◌≡◌, ◌≤◌, ◌-◌, ◌^◌, min, length, true};
ghost use Rattle.cel_tokens.specs.Ints as ints;

use crate::bytes::{digit_value, digits_len, is_digit_of, tail};

/// The number that the digits denote, capped at the greatest `u64`.
#[tactic(auto, using(crate::proofs::Numbers::number_empty, crate::proofs::Numbers::number_more))]
pub fn number(digits: &[u8], base: u64) -> u64
    requires { 1 ≤ base }
    ensures { result ≡ min (ints.number base digits.now) (2 ^ 64 - 1) }
{
    let mut value: u64 = 0;
    let mut n = 0;
    while n < digits.len() {
        value = value
            .saturating_mul(base)
            .saturating_add(digit_value(digits[n]));
        n += 1;
    }
    value
}

/// Whether a decimal digit is at the front.
pub fn digit_begins(bytes: &[u8]) -> bool
    ensures { result ≡ ints.digit_begins bytes.now }
{
    match bytes {
        [first, ..] => is_digit_of(10, *first),
        [] => false,
    }
}

/// Whether `0x` and a hex digit are at the front.
fn hex_begins(bytes: &[u8]) -> bool
    ensures { result ≡ ints.hex_begins bytes.now }
{
    match bytes {
        [zero, letter, first, ..] => *zero == b'0' && *letter == b'x' && is_digit_of(16, *first),
        _ => false,
    }
}

/// The number of digits at the front, and the number that they denote, capped at the greatest `u64`.
fn spelled(bytes: &[u8], base: u64) -> (usize, u64)
    requires { 1 ≤ base }
    ensures len { result.0 ≡ (ints.spelled base bytes.now).0 }
    ensures value { result.1 ≡ min (ints.spelled base bytes.now).1 (2 ^ 64 - 1) }
    ensures within { result.0 ≤ length bytes.now }
    ensures some { ints.digit_begins_in base bytes.now ≡ true → 1 ≤ result.0 }
{
    let len = digits_len(bytes, base);
    (len, number(&bytes[..len], base))
}

/// The length of the int at the front, and its value without the sign, capped at the greatest `u64`.
pub fn int_at(bytes: &[u8]) -> (usize, u64)
    ensures len { result.0 ≡ (ints.int_at bytes.now).0 }
    ensures value { result.1 ≡ min (ints.int_at bytes.now).1 (2 ^ 64 - 1) }
    ensures within { result.0 ≤ length bytes.now }
    ensures some { ints.digit_begins bytes.now ≡ true → 1 ≤ result.0 }
{
    if hex_begins(bytes) {
        let (len, value) = spelled(tail(bytes, 2), 16);
        (len + 2, value)
    } else {
        spelled(bytes, 10)
    }
}

/// The int with this sign and absolute value, if it fits 64 bits.
pub fn int_of(minus: bool, value: u64) -> Option<i64>
    ensures { result ≡ ints.int_of minus value }
{
    let int = if minus {
        -(value as i128)
    } else {
        value as i128
    };
    i64::try_from(int).ok()
}
