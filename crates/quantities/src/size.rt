//! Quantities from their parts.
ghost use Rattle.std.specs.Prelude.{◌≡◌, ◌<◌, ◌-◌, ◌^◌, min};
ghost use Rattle.quantities.specs.Quantities as specs;

use crate::amount::Quantity;
use crate::numbers::{mantissa, scale};
use crate::powers::scaled;
use crate::quantity_error::QuantityError;
use crate::spelled::Spelled;
use crate::unit::Unit;

/// The least size of more than 127 bits.
const LIMIT: u128 = 170141183460469231731687303715884105728;

/// The size, or 2^63 - 1 in billionths if it is larger and the unit is binary.
fn capped(unit: Unit, size: u128) -> u128
    ensures { result ≡ specs.capped unit size }
{
    match unit {
        Unit::Decimal(_) => size,
        Unit::Binary(_) => size.min(9223372036854775807000000000),
    }
}

/// A mantissa times a power of 10 in a unit, rounded up, capped at the greatest `u128`.
#[tactic(auto, using(crate::proofs::Caps::cap))]
fn size(unit: Unit, mantissa: u128, power: i128) -> u128
    ensures { mantissa < 2 ^ 128 - 1 → result ≡ min (specs.capped unit (specs.scaled mantissa power)) (2 ^ 128 - 1) }
{
    capped(unit, scaled(mantissa, power))
}

/// The number with this sign and size.
fn signed(minus: bool, size: u128) -> i128
    requires { size < 2 ^ 127 }
    ensures { result ≡ specs.with_sign minus size }
{
    if minus { -(size as i128) } else { size as i128 }
}

/// The quantity with this sign, mantissa and size in billionths.
#[tactic(auto, unfolding(crate::specs::Quantities::made))]
fn made(minus: bool, mantissa: u128, size: u128) -> Result<Quantity, QuantityError>
    ensures { result ≡ specs.made minus mantissa size }
{
    if mantissa < LIMIT && size < LIMIT {
        Ok(Quantity {
            billionths: signed(minus, size),
        })
    } else {
        Err(QuantityError::TooLarge)
    }
}

/// The quantity of these parts, or `TooLarge`.
pub fn quantity_in(spelled: &Spelled) -> Result<Quantity, QuantityError>
    ensures { result ≡ specs.quantity_in (specs.spelled_view spelled.now) }
{
    let mantissa = mantissa(spelled);
    let power = 9 + scale(spelled);
    let size = size(spelled.unit, mantissa, power);
    made(spelled.minus, mantissa, size)
}

/// -1, 0 or 1: the sign of the quantity of these parts.
pub fn sign_in(spelled: &Spelled) -> i64
    ensures { result ≡ specs.sign_in (specs.spelled_view spelled.now) }
{
    if mantissa(spelled) == 0 {
        0
    } else if spelled.minus {
        -1
    } else {
        1
    }
}
