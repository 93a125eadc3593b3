//! A number with a unit.
ghost use Rattle.std.specs.Prelude.{◌≡◌, ◌<◌, ◌≤◌, ◌+◌, ◌*◌, ◌/◌, ◌^◌, IfOk};
ghost use Rattle.durations.specs.Durations as specs;
ghost use Rattle.text_numbers.specs.Numbers.{IsFraction, number_view};

use crate::duration_error::DurationError;
use crate::time_unit::TimeUnit;
use crate::units::{nanoseconds, places, unit_named};
use text_numbers::{Number, digits_number};

/// The greatest size of a duration, in nanoseconds.
pub const LIMIT: u128 = 9223372036854775808;

/// The size, if it is at most 2^63.
pub fn limited(size: u128) -> Result<u128, DurationError>
    ensures value { result ≡ specs.limited size }
    ensures small { IfOk result (λ n. n ≤ 2 ^ 63) }
{
    if size <= LIMIT {
        Ok(size)
    } else {
        Err(DurationError::Invalid)
    }
}

/// The nanoseconds of a number before and after its point, with `len` digits after it.
fn exact(whole: u128, digits: u128, len: usize, unit: u128) -> u128
    requires whole { whole ≤ 2 ^ 63 }
    requires digits { digits < 10 ^ len }
    requires len { len ≤ 11 }
    requires unit { unit ≤ 3600000000000 }
    ensures { result ≡ whole * unit + digits * unit / 10 ^ len }
{
    let size = whole * unit;
    let scaled = digits * unit;
    let power = 10u128.pow(len as u32);
    let part = scaled / power;
    size + part
}

/// The nanoseconds of a number in a unit.
fn in_unit(number: &Number, unit: TimeUnit) -> Result<u128, DurationError>
    requires { IsFraction number.now.fraction.now }
    ensures value { result ≡ specs.in_unit (number_view number.now) unit }
    ensures small { IfOk result (λ n. n ≤ 2 ^ 63) }
{
    let len = number.fraction.len();
    let most = places(unit);
    if len > most {
        return Err(DurationError::TooFine);
    }
    let whole = digits_number(number.whole);
    let unit_size = nanoseconds(unit);
    if whole > LIMIT {
        return Err(DurationError::Invalid);
    }
    let digits = digits_number(number.fraction);
    let size = exact(whole, digits, len, unit_size);
    limited(size)
}

/// Whether the number has a digit.
fn has_digit(number: &Number) -> bool
    ensures { result ≡ specs.has_digit (number_view number.now) }
{
    !(number.whole.is_empty() && number.fraction.is_empty())
}

/// The nanoseconds of a number with the unit of this name.
pub fn with_unit(number: &Number, name: &[u8]) -> Result<u128, DurationError>
    requires { IsFraction number.now.fraction.now }
    ensures value { result ≡ specs.with_unit (number_view number.now) (specs.unit_named name.now) }
    ensures small { IfOk result (λ n. n ≤ 2 ^ 63) }
{
    let Some(unit) = unit_named(name) else {
        return Err(DurationError::Invalid);
    };
    if !has_digit(number) {
        return Err(DurationError::Invalid);
    }
    in_unit(number, unit)
}
