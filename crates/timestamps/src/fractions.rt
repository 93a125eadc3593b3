//! Fractions of a second.
ghost use Rattle.std.specs.Prelude.{◌≡◌, ◌≤◌, ◌*◌, ◌-◌, ◌^◌, drop, length, option_map};
ghost use Rattle.text_numbers.specs.Numbers.{AreAllDigits, number};
ghost use Rattle.timestamps.specs.Timestamps as specs;

use crate::bytes::has_at;
use text_numbers::{digits_len, digits_number};

/// The nanoseconds of at most nine digits.
fn nanos_in(digits: &[u8]) -> u64
    requires digits { AreAllDigits digits.now }
    requires few { length digits.now ≤ 9 }
    ensures { result ≡ number digits.now * 10 ^ (9 - length digits.now) }
{
    let number = digits_number(digits) as u64;
    number * 10u64.pow((9 - digits.len()) as u32)
}

/// The nanoseconds of the digits of a fraction.
fn nanos_of(digits: &[u8]) -> u64
    requires { AreAllDigits digits.now }
    ensures { result ≡ specs.nanos_of digits.now }
{
    let len = 9usize.min(digits.len());
    let halves = digits.split_at(len);
    nanos_in(halves.0)
}

/// The text without its first byte.
fn tail(text: &[u8]) -> &[u8]
    ensures { result.now ≡ drop 1 text.now }
{
    match text {
        [_, rest @ ..] => rest,
        [] => text,
    }
}

/// The nanoseconds of the digits at the front, and what follows them.
fn digits_of(text: &[u8]) -> Option<(u64, &[u8])>
    ensures { option_map (λ p. (p.0, p.1.now)) result ≡ specs.digits_of text.now }
{
    let len = digits_len(text);
    if len > 0 {
        let halves = text.split_at(len);
        Some((nanos_of(halves.0), halves.1))
    } else {
        None
    }
}

/// The nanoseconds of a point and digits at the front, or 0, and what follows.
#[tactic(auto, unfolding(crate::specs::Timestamps::fraction_of))]
pub fn fraction_of(text: &[u8]) -> Option<(u64, &[u8])>
    ensures { option_map (λ p. (p.0, p.1.now)) result ≡ specs.fraction_of text.now }
{
    if has_at(text, 0, b'.') {
        digits_of(tail(text))
    } else {
        Some((0, text))
    }
}
