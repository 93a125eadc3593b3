//! Timestamps in texts.
ghost use Rattle.std.specs.Prelude.{◌≡◌, ◌<◌, ◌≤ℤ◌, pos, negsuc, drop, IfSome, option_map};
ghost use Rattle.timestamps.specs.Timestamps as specs;

use crate::bytes::{has_at, minutes_at, pair_at};
use crate::calendar::{day_number, is_day};
use crate::fractions::fraction_of;
use crate::moment::Timestamp;
use crate::offsets::offset_of;

/// The time that the text spells (`timestamp` of cel-go; RFC 3339 in upper case), in years 1 to 9999 of UTC. Digits of a
/// second beyond nine are cut.
#[tactic(auto, unfolding(crate::specs::Timestamps::timestamp_of))]
pub fn timestamp_of(text: &str) -> Option<Timestamp>
    ensures value { option_map (λ t. t.nanoseconds) result ≡ specs.timestamp_of text.now }
    ensures within { IfSome result (λ t. specs.IsTimestamp t.nanoseconds) }
{
    let text = text.as_bytes();
    let day = day_of(text)?;
    let seconds = seconds_of(text)?;
    let fraction = fraction_of(after_second(text))?;
    let offset = offset_of(fraction.1)?;
    within(since_1970(86400 * day + seconds, offset, fraction.0))
}

/// The number of a day, if it exists.
fn existing(year: u64, month: u64, day: u64) -> Option<u64>
    requires { year < 10000 }
    ensures value { result ≡ specs.existing year month day }
    ensures small { IfSome result (λ n. n < 5000000) }
{
    if is_day(year, month, day) {
        Some(day_number(year, month, day))
    } else {
        None
    }
}

/// The number of the day of the date at the front.
#[tactic(auto, unfolding(crate::specs::Timestamps::day_of))]
fn day_of(text: &[u8]) -> Option<u64>
    ensures value { result ≡ specs.day_of text.now }
    ensures small { IfSome result (λ n. n < 5000000) }
{
    let century = pair_at(0, text)?;
    let year = pair_at(2, text)?;
    let month = pair_at(5, text)?;
    let day = pair_at(8, text)?;
    if has_at(text, 4, b'-') && has_at(text, 7, b'-') {
        existing(100 * century + year, month, day)
    } else {
        None
    }
}

/// The seconds of the time of day after the date.
#[tactic(auto, unfolding(crate::specs::Timestamps::seconds_of))]
fn seconds_of(text: &[u8]) -> Option<u64>
    ensures value { result ≡ specs.seconds_of text.now }
    ensures small { IfSome result (λ n. n < 86400) }
{
    let minutes = minutes_at(11, text)?;
    let second = pair_at(17, text)?;
    if has_at(text, 10, b'T') && has_at(text, 16, b':') && second < 60 {
        Some(60 * minutes + second)
    } else {
        None
    }
}

/// The text after its first 19 bytes: those of a date and a time of day.
#[tactic(auto, using(std::proofs::lemmas::List::drop_min))]
fn after_second(text: &[u8]) -> &[u8]
    ensures { result.now ≡ drop 19 text.now }
{
    let at = 19usize.min(text.len());
    &text[at..]
}

/// Nanoseconds since 1970, of a second from the start of year 0 in a place with an offset, and nanoseconds after it.
fn since_1970(seconds: u64, offset: i64, nanos: u64) -> i128
    requires seconds { seconds < 500000000000 }
    requires low { negsuc 86399 ≤ℤ offset }
    requires high { offset ≤ℤ pos 86399 }
    ensures { result ≡ specs.since_1970 seconds offset nanos }
{
    let from_1970 = seconds as i64 - offset - 62167219200;
    from_1970 as i128 * 1000000000 + nanos as i128
}

/// The timestamp, if it is in years 1 to 9999.
pub fn within(nanoseconds: i128) -> Option<Timestamp>
    ensures value { option_map (λ t. t.nanoseconds) result ≡ specs.within nanoseconds }
    ensures within { IfSome result (λ t. specs.IsTimestamp t.nanoseconds) }
{
    if nanoseconds >= -62135596800000000000 && nanoseconds < 253402300800000000000 {
        Some(Timestamp { nanoseconds })
    } else {
        None
    }
}
