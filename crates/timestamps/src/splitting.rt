//! Timestamps as fields.
ghost use Rattle.std.specs.Prelude.{◌≡◌, ◌<◌};
ghost use Rattle.timestamps.specs.Fields as specs;
ghost use Rattle.timestamps.specs.Timestamps.{IsTimestamp};

use crate::dates::date_of;
use crate::fields::Fields;
use crate::moment::Timestamp;

/// The nanoseconds since the start of year 0.
fn since_0(timestamp: Timestamp) -> u128
    requires { IsTimestamp timestamp.nanoseconds }
    ensures value { result ≡ specs.since_0 timestamp.nanoseconds }
    ensures small { result < 315569520000000000000 }
{
    (timestamp.nanoseconds + 62167219200000000000).unsigned_abs()
}

impl Timestamp {
    /// The fields in UTC.
    pub fn fields(self) -> Fields
        requires { IsTimestamp self.nanoseconds }
        ensures { specs.AreFields self.nanoseconds result }
    {
        let nanoseconds = since_0(self);
        let day = (nanoseconds / 86400000000000) as u64;
        let date = date_of(day);
        Fields {
            date: date.0,
            day_of_year: date.1,
            day_of_week: (day + 6) % 7,
            hours: (nanoseconds / 3600000000000 % 24) as u64,
            minutes: (nanoseconds / 60000000000 % 60) as u64,
            seconds: (nanoseconds / 1000000000 % 60) as u64,
            milliseconds: (nanoseconds / 1000000 % 1000) as u64,
        }
    }
}
