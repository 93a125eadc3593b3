//! The whole units of a duration.
ghost use Rattle.std.specs.Prelude.{◌≡◌, ◌<◌, ◌^◌, pos, int_div};
ghost use Rattle.durations.specs.Parts as specs;

use std::num::{nearest_i64_to_f64, saturating_f64_to_i64};

/// The nanoseconds in units of `unit` nanoseconds, as a sum of two doubles, cut toward 0.
fn whole(nanoseconds: i64, unit: i64) -> i64
    requires { specs.IsUnit unit }
    ensures { result ≡ specs.whole unit nanoseconds }
{
    let units = nearest_i64_to_f64(nanoseconds / unit);
    let part = nearest_i64_to_f64(nanoseconds % unit);
    let size = nearest_i64_to_f64(unit);
    saturating_f64_to_i64(units + part / size)
}

/// `getHours()`: whole hours, cut toward 0, by doubles as in Go: `Duration.Hours`.
pub fn hours(nanoseconds: i64) -> i64
    ensures { result ≡ specs.hours nanoseconds }
{
    whole(nanoseconds, 3600000000000)
}

/// `getMinutes()`: whole minutes, cut toward 0, by doubles as in Go: `Duration.Minutes`.
pub fn minutes(nanoseconds: i64) -> i64
    ensures { result ≡ specs.minutes nanoseconds }
{
    whole(nanoseconds, 60000000000)
}

/// `getSeconds()`: whole seconds, cut toward 0, by doubles as in Go: `Duration.Seconds`.
pub fn seconds(nanoseconds: i64) -> i64
    ensures { result ≡ specs.seconds nanoseconds }
{
    whole(nanoseconds, 1000000000)
}

/// `getMilliseconds()`: whole milliseconds, cut toward 0.
pub fn milliseconds(nanoseconds: i64) -> i64
    ensures { result ≡ specs.milliseconds nanoseconds }
{
    nanoseconds / 1000000
}
