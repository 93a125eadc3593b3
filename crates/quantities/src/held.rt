//! Whether the API server holds a quantity as a signed 64-bit integer times a power of 10.
ghost use Rattle.std.specs.Prelude.{◌≡◌, ◌+◌, ◌*◌, ◌/◌, ◌≤◌, ◌==◌, length, nat_le};
ghost use Rattle.std.specs.List.{prefix_len};
ghost use Rattle.quantities.specs.Quantities as specs;

use crate::numbers::{mantissa, scale};
use crate::spelled::Spelled;
use crate::unit::Unit;

/// The number of zeros in front.
#[tactic(auto, using(crate::proofs::Zeros::zeros_empty, crate::proofs::Zeros::zeros_more, crate::proofs::Zeros::zeros_stop))]
fn zeros_len(digits: &[u8]) -> usize
    ensures len { result ≡ prefix_len (λ b. b == 48) digits.now }
    ensures within { result ≤ length digits.now }
{
    let mut n = 0;
    while n < digits.len() && digits[n] == b'0' {
        n += 1;
    }
    n
}

/// The number of digits before the point without zeros in front, but at least 1.
fn whole_len(whole: &[u8]) -> usize
    ensures { result ≡ specs.whole_len whole.now }
{
    1usize.max(whole.len() - zeros_len(whole))
}

/// Whether a number with a decimal suffix is held so: at most 18 digits, none below a billionth.
fn is_held_decimal(spelled: &Spelled) -> bool
    ensures { result ≡ specs.is_held_decimal (specs.spelled_view spelled.now) }
{
    let whole = whole_len(spelled.whole);
    whole <= 18 && spelled.fraction.len() <= 18 - whole && scale(spelled) >= -9
}

/// Whether digits before the point and the bits of a suffix are few: the API server counts 3 digits for 10 bits.
fn is_short(whole: usize, bits: u32) -> bool
    ensures { result ≡ nat_le (whole + 3 * bits / 10 + 1) 15 }
{
    let digits = 3 * u64::from(bits) / 10 + 1;
    whole <= 15 && digits <= 15 - whole as u64
}

/// Whether a number with a binary suffix is held so: no fraction, few digits and 63 bits.
fn is_held_binary(bits: u32, spelled: &Spelled) -> bool
    ensures { result ≡ specs.is_held_binary bits (specs.spelled_view spelled.now) }
{
    let size = mantissa(spelled);
    spelled.fraction.is_empty()
        && is_short(whole_len(spelled.whole), bits)
        && size < 9223372036854775808
}

/// Whether the API server holds the quantity as a signed 64-bit integer times a power of 10.
pub fn is_held(spelled: &Spelled) -> bool
    ensures { result ≡ specs.is_held (specs.spelled_view spelled.now) }
{
    match spelled.unit {
        Unit::Decimal(_) => is_held_decimal(spelled),
        Unit::Binary(bits) => is_held_binary(bits, spelled),
    }
}
