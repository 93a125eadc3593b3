//! Exponents after `e` or `E`.
ghost use Rattle.std.specs.Prelude.{◌≡◌};
ghost use Rattle.quantities.specs.Suffixes as specs;

use text_numbers::{digits_len, digits_number, has_minus, without_sign};

/// Whether this size with this sign fits 64 bits.
fn fits64(minus: bool, size: u128) -> bool
    ensures { result ≡ specs.fits64 minus size }
{
    if minus {
        size <= 9223372036854775808
    } else {
        size < 9223372036854775808
    }
}

/// The signed 32-bit integer with the low 32 bits of a number of this size and sign.
fn low32(minus: bool, size: u128) -> i64
    ensures { result ≡ specs.low32 minus size }
{
    let low = (size % 4294967296) as i64;
    if minus {
        if low <= 2147483648 {
            -low
        } else {
            4294967296 - low
        }
    } else {
        if low < 2147483648 {
            low
        } else {
            low - 4294967296
        }
    }
}

/// Whether the text is decimal digits alone, at least one.
fn is_numeral(digits: &[u8]) -> bool
    ensures { result ≡ specs.is_numeral digits.now }
{
    !digits.is_empty() && digits_len(digits) == digits.len()
}

/// The exponent of a number with this sign and size.
#[tactic(auto, unfolding(crate::specs::Suffixes::exponent_in))]
fn exponent_in(minus: bool, size: u128) -> Option<i64>
    ensures { result ≡ specs.exponent_in minus size }
{
    if fits64(minus, size) {
        Some(low32(minus, size))
    } else {
        None
    }
}

/// The exponent that the text spells: an integer of 64 bits, of which the low 32 bits count.
#[tactic(auto, using(crate::proofs::Exponents::kept_exponent))]
pub fn exponent_of(text: &[u8]) -> Option<i64>
    ensures { result ≡ specs.exponent_of text.now }
{
    let minus = has_minus(text);
    let digits = without_sign(text);
    let size = digits_number(digits);
    if is_numeral(digits) {
        exponent_in(minus, size)
    } else {
        None
    }
}
