//! A number with a point at the front of a text.
ghost use Rattle.std.specs.Prelude.{◌≡◌, ◌≤◌, drop, length};
ghost use Rattle.text_numbers.specs.Numbers as specs;

use crate::digits::digits_len;

/// A number at the front of a text, and the text after it. Each part may be empty.
#[derive(Clone, Copy, Debug)]
pub struct Number<'t> {
    /// The decimal digits before the point.
    pub whole: &'t [u8],
    /// The decimal digits after the point.
    pub fraction: &'t [u8],
    /// What follows the number.
    pub rest: &'t [u8],
}

/// The bytes after the first one.
fn tail(bytes: &[u8]) -> &[u8]
    ensures { result.now ≡ drop 1 bytes.now }
{
    match bytes {
        [_, rest @ ..] => rest,
        [] => bytes,
    }
}

/// The number of bytes of a point and the digits after it, or 0.
fn fraction_len(text: &[u8]) -> usize
    ensures len { result ≡ specs.fraction_len text.now }
    ensures within { result ≤ length text.now }
{
    match text {
        [b'.', rest @ ..] => digits_len(rest) + 1,
        _ => 0,
    }
}

/// The number at the front of the text: digits, then a point and digits if a point follows. Each part may be empty.
pub fn number_at(text: &[u8]) -> Number<'_>
    ensures parts { specs.number_view result ≡ specs.written text.now }
    ensures fraction { specs.IsFraction result.fraction.now }
{
    let front = digits_len(text);
    let halves = text.split_at(front);
    let pointed = fraction_len(halves.1);
    let ends = halves.1.split_at(pointed);
    Number {
        whole: halves.0,
        fraction: tail(ends.0),
        rest: ends.1,
    }
}
