//! Durations in texts.
ghost use Rattle.std.specs.Prelude.{◌≡◌, ◌<◌, ◌≤◌, ◌^◌, IfOk, length};
ghost use Rattle.durations.specs.Durations as specs;
ghost use Rattle.text_numbers.specs.Numbers.{written};

use crate::duration_error::DurationError;
use crate::numbers::{LIMIT, limited, with_unit};
use crate::units::unit_len;
use text_numbers::{has_minus, number_at, without_sign};

/// The nanoseconds of the duration that the text spells (`duration` of cel-go; time.ParseDuration): a sign or none, and
/// `0` or numbers with units, each with a point or none.
#[tactic(auto, unfolding(crate::specs::Durations::duration_of))]
pub fn duration_of(text: &str) -> Result<i64, DurationError>
    ensures { result ≡ specs.duration_of text.now }
{
    let text = text.as_bytes();
    let size = unsigned(without_sign(text))?;
    signed(has_minus(text), size)
}

/// The size with its sign. 2^63 has one only with a minus.
fn signed(minus: bool, size: u128) -> Result<i64, DurationError>
    requires { size ≤ 2 ^ 63 }
    ensures { result ≡ specs.signed minus size }
{
    if minus {
        Ok((-(size as i128)) as i64)
    } else if size < LIMIT {
        Ok(size as i64)
    } else {
        Err(DurationError::Invalid)
    }
}

/// The nanoseconds of a duration without its sign.
fn unsigned(text: &[u8]) -> Result<u128, DurationError>
    ensures value { result ≡ specs.unsigned_duration text.now }
    ensures small { IfOk result (λ n. n ≤ 2 ^ 63) }
{
    if text == b"0".as_slice() {
        Ok(0)
    } else if text.is_empty() {
        Err(DurationError::Invalid)
    } else {
        sum(text)
    }
}

/// A sum and one more size, if that is one.
fn total(sum: u128, size: Result<u128, DurationError>) -> Result<u128, DurationError>
    requires sum { sum ≤ 2 ^ 63 }
    requires size { IfOk size (λ n. n ≤ 2 ^ 63) }
    ensures value { result ≡ specs.total sum size }
    ensures small { IfOk result (λ n. n ≤ 2 ^ 63) }
{
    match size {
        Ok(size) => limited(sum + size),
        Err(error) => Err(error),
    }
}

/// A sum and the number at the front of the text, and the text after that number and its unit.
#[tactic(auto, unfolding(crate::specs::Durations::next))]
fn step(sum: u128, text: &[u8]) -> (Result<u128, DurationError>, &[u8])
    requires { sum ≤ 2 ^ 63 }
    ensures value { result.0 ≡ specs.next sum (written text.now) }
    ensures small { IfOk result.0 (λ n. n ≤ 2 ^ 63) }
    ensures rest { result.1.now ≡ specs.after_number (written text.now) }
{
    let number = number_at(text);
    let len = unit_len(number.rest);
    let halves = number.rest.split_at(len);
    (total(sum, with_unit(&number, halves.0)), halves.1)
}

/// The sum of numbers with units.
fn sum(text: &[u8]) -> Result<u128, DurationError>
    ensures value { result ≡ specs.sum_after (length text.now) 0 text.now }
    ensures small { IfOk result (λ n. n ≤ 2 ^ 63) }
{
    let mut sum = 0;
    let mut rest = text;
    'numbers: while !rest.is_empty() {
        let next = step(sum, rest);
        match next.0 {
            Ok(total) => {
                sum = total;
                rest = next.1;
            }
            Err(error) => return Err(error),
        }
    }
    Ok(sum)
}
