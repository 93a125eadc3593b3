//! Sums and differences with timestamps.
ghost use Rattle.std.specs.Prelude.{◌≡◌, ◌+ℤ◌, ◌-ℤ◌, IfSome, option_map};
ghost use Rattle.timestamps.specs.Arithmetic as specs;
ghost use Rattle.timestamps.specs.Timestamps.{IsTimestamp, within};

use crate::moment::Timestamp;
use crate::reading;

impl Timestamp {
    /// `t + d`, for a duration in nanoseconds. `None` outside years 1 to 9999.
    pub fn later(self, nanoseconds: i64) -> Option<Timestamp>
        requires { IsTimestamp self.nanoseconds }
        ensures value { option_map (λ t. t.nanoseconds) result ≡ within (self.nanoseconds +ℤ nanoseconds) }
        ensures within { IfSome result (λ t. IsTimestamp t.nanoseconds) }
    {
        reading::within(self.nanoseconds + nanoseconds as i128)
    }

    /// `t - d`, for a duration in nanoseconds. `None` outside years 1 to 9999.
    pub fn earlier(self, nanoseconds: i64) -> Option<Timestamp>
        requires { IsTimestamp self.nanoseconds }
        ensures value { option_map (λ t. t.nanoseconds) result ≡ within (self.nanoseconds -ℤ nanoseconds) }
        ensures within { IfSome result (λ t. IsTimestamp t.nanoseconds) }
    {
        reading::within(self.nanoseconds - nanoseconds as i128)
    }

    /// `self - other`, in nanoseconds. `None` if these, or those of the seconds alone, do not fit 64 bits.
    pub fn since(self, other: Timestamp) -> Option<i64>
        requires first { IsTimestamp self.nanoseconds }
        requires second { IsTimestamp other.nanoseconds }
        ensures { result ≡ specs.between self.nanoseconds other.nanoseconds }
    {
        let seconds = seconds_between(self, other);
        let nanoseconds = nanoseconds_between(self, other);
        second_if_both(seconds, nanoseconds)
    }
}

/// The second in which the timestamp is, since 1970.
fn second_of(timestamp: Timestamp) -> i128
    requires { IsTimestamp timestamp.nanoseconds }
    ensures { result ≡ specs.second_of timestamp.nanoseconds }
{
    timestamp.nanoseconds.div_euclid(1000000000)
}

/// The seconds between two timestamps, as nanoseconds.
fn seconds_between(a: Timestamp, b: Timestamp) -> i128
    requires first { IsTimestamp a.nanoseconds }
    requires second { IsTimestamp b.nanoseconds }
    ensures { result ≡ specs.seconds_between a.nanoseconds b.nanoseconds }
{
    (second_of(a) - second_of(b)) * 1000000000
}

/// The nanoseconds between two timestamps.
fn nanoseconds_between(a: Timestamp, b: Timestamp) -> i128
    requires first { IsTimestamp a.nanoseconds }
    requires second { IsTimestamp b.nanoseconds }
    ensures { result ≡ a.nanoseconds -ℤ b.nanoseconds }
{
    a.nanoseconds - b.nanoseconds
}

/// The second number, if both fit 64 bits.
#[tactic(auto, unfolding(crate::specs::Arithmetic::second_if_both))]
fn second_if_both(first: i128, second: i128) -> Option<i64>
    ensures { result ≡ specs.second_if_both first second }
{
    match narrow(first) {
        Some(_) => narrow(second),
        None => None,
    }
}

/// The number, if it fits 64 bits.
#[tactic(auto, unfolding(crate::specs::Arithmetic::narrow))]
fn narrow(number: i128) -> Option<i64>
    ensures { result ≡ specs.narrow number }
{
    if number >= -9223372036854775808 && number <= 9223372036854775807 {
        Some(number as i64)
    } else {
        None
    }
}
