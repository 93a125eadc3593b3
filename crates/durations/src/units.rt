//! The units of durations.
ghost use Rattle.std.specs.Prelude.{◌≡◌, ◌≤◌, length};
ghost use Rattle.durations.specs.Durations as specs;

use crate::time_unit::TimeUnit;

/// The nanoseconds of the unit.
pub fn nanoseconds(unit: TimeUnit) -> u128
    ensures value { result ≡ specs.nanoseconds unit }
    ensures small { result ≤ 3600000000000 }
{
    match unit {
        TimeUnit::Hour => 3600000000000,
        TimeUnit::Minute => 60000000000,
        TimeUnit::Second => 1000000000,
        TimeUnit::Millisecond => 1000000,
        TimeUnit::Microsecond => 1000,
        TimeUnit::Nanosecond => 1,
    }
}

/// The places after the point that are read exactly.
pub fn places(unit: TimeUnit) -> usize
    ensures value { result ≡ specs.places unit }
    ensures small { result ≤ 11 }
{
    match unit {
        TimeUnit::Hour => 11,
        TimeUnit::Minute => 10,
        TimeUnit::Second => 9,
        TimeUnit::Millisecond => 6,
        TimeUnit::Microsecond => 3,
        TimeUnit::Nanosecond => 0,
    }
}

/// The unit of this name. A microsecond has three names.
#[tactic(auto, unfolding(crate::specs::Durations::unit_named))]
pub fn unit_named(name: &[u8]) -> Option<TimeUnit>
    ensures { result ≡ specs.unit_named name.now }
{
    match name {
        b"h" => Some(TimeUnit::Hour),
        b"m" => Some(TimeUnit::Minute),
        b"s" => Some(TimeUnit::Second),
        b"ms" => Some(TimeUnit::Millisecond),
        b"us" => Some(TimeUnit::Microsecond),
        b"\xc2\xb5s" => Some(TimeUnit::Microsecond),
        b"\xce\xbcs" => Some(TimeUnit::Microsecond),
        b"ns" => Some(TimeUnit::Nanosecond),
        _ => None,
    }
}

/// Whether the byte continues the name of a unit: it is neither a digit nor a point.
fn is_unit_byte(byte: u8) -> bool
    ensures { result ≡ specs.is_unit_byte byte }
{
    !(byte.is_ascii_digit() || byte == b'.')
}

/// The number of bytes of the unit's name at the front.
#[tactic(auto, using(crate::proofs::UnitNames::unit_empty, crate::proofs::UnitNames::unit_more, crate::proofs::UnitNames::unit_stop))]
pub fn unit_len(text: &[u8]) -> usize
    ensures len { result ≡ specs.unit_len text.now }
    ensures within { result ≤ length text.now }
{
    let mut n = 0;
    while n < text.len() && is_unit_byte(text[n]) {
        n += 1;
    }
    n
}
