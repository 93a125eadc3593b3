//! The suffixes of quantities.
ghost use Rattle.std.specs.Prelude.{◌≡◌};
ghost use Rattle.quantities.specs.Suffixes as specs;

use crate::exponent::exponent_of;
use crate::unit::Unit;

/// The unit of a suffix for a power of 1000.
#[tactic(auto, unfolding(crate::specs::Suffixes::decimal_of))]
fn decimal_of(suffix: &[u8]) -> Option<Unit>
    ensures { result ≡ specs.decimal_of suffix.now }
{
    match suffix {
        b"" => Some(Unit::Decimal(0)),
        b"n" => Some(Unit::Decimal(-9)),
        b"u" => Some(Unit::Decimal(-6)),
        b"m" => Some(Unit::Decimal(-3)),
        b"k" => Some(Unit::Decimal(3)),
        b"M" => Some(Unit::Decimal(6)),
        b"G" => Some(Unit::Decimal(9)),
        b"T" => Some(Unit::Decimal(12)),
        b"P" => Some(Unit::Decimal(15)),
        b"E" => Some(Unit::Decimal(18)),
        _ => None,
    }
}

/// The unit of a suffix for a power of 1024.
#[tactic(auto, unfolding(crate::specs::Suffixes::binary_of))]
fn binary_of(suffix: &[u8]) -> Option<Unit>
    ensures { result ≡ specs.binary_of suffix.now }
{
    match suffix {
        b"Ki" => Some(Unit::Binary(10)),
        b"Mi" => Some(Unit::Binary(20)),
        b"Gi" => Some(Unit::Binary(30)),
        b"Ti" => Some(Unit::Binary(40)),
        b"Pi" => Some(Unit::Binary(50)),
        b"Ei" => Some(Unit::Binary(60)),
        _ => None,
    }
}

/// The unit of `e` or `E` with an integer.
fn exponential_of(suffix: &[u8]) -> Option<Unit>
    ensures { result ≡ specs.exponential_of suffix.now }
{
    match suffix {
        [b'e' | b'E', text @ ..] => exponent_of(text).map(Unit::Decimal),
        _ => None,
    }
}

/// The unit of a suffix.
pub fn unit_of(suffix: &[u8]) -> Option<Unit>
    ensures { result ≡ specs.unit_of suffix.now }
{
    match decimal_of(suffix) {
        Some(unit) => Some(unit),
        None => match binary_of(suffix) {
            Some(unit) => Some(unit),
            None => exponential_of(suffix),
        },
    }
}
