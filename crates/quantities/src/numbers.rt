//! The mantissa and the scale of a quantity.
ghost use Rattle.std.specs.Prelude.{◌≡◌, ◌-◌, ◌^◌, ◌≤ℤ◌, min, pos, negsuc};
ghost use Rattle.quantities.specs.Quantities as specs;

use crate::spelled::Spelled;
use crate::unit::Unit;
use text_numbers::joined_number;

/// The factor of a unit, capped at the greatest `u128`.
fn factor(unit: Unit) -> u128
    ensures { result ≡ min (specs.factor unit) (2 ^ 128 - 1) }
{
    match unit {
        Unit::Decimal(_) => 1,
        Unit::Binary(bits) => 2u128.saturating_pow(bits),
    }
}

/// The power of 10 of a unit.
fn exponent(unit: Unit) -> i64
    ensures { result ≡ specs.exponent unit }
{
    match unit {
        Unit::Decimal(exponent) => exponent,
        Unit::Binary(_) => 0,
    }
}

/// The number without its point, times the factor of its unit, capped at the greatest `u128`.
#[tactic(auto, using(crate::proofs::Caps::product))]
pub fn mantissa(spelled: &Spelled) -> u128
    ensures { result ≡ min (specs.mantissa (specs.spelled_view spelled.now)) (2 ^ 128 - 1) }
{
    let digits = joined_number(spelled.whole, spelled.fraction);
    digits.saturating_mul(factor(spelled.unit))
}

/// The power of 10 that the mantissa is multiplied by.
pub fn scale(spelled: &Spelled) -> i128
    ensures value { result ≡ specs.scale (specs.spelled_view spelled.now) }
    ensures low { negsuc (2 ^ 65) ≤ℤ result }
    ensures high { result ≤ℤ pos (2 ^ 65) }
{
    exponent(spelled.unit) as i128 - spelled.fraction.len() as i128
}
