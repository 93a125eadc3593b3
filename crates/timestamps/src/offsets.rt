//! Offsets from UTC.
ghost use Rattle.std.specs.Prelude.{◌≡◌, ◌<◌, ◌≤ℤ◌, pos, negsuc, IfSome};
ghost use Rattle.timestamps.specs.Timestamps as specs;

use crate::bytes::{byte_at, has_at, minutes_at};

/// The seconds of minutes with this sign.
fn signed(sign: u8, minutes: u64) -> Option<i64>
    requires { minutes < 1440 }
    ensures value { result ≡ specs.signed sign minutes }
    ensures small { IfSome result (λ z. (negsuc 86399 ≤ℤ z) × (z ≤ℤ pos 86399)) }
{
    let seconds = (60 * minutes) as i64;
    if sign == b'+' {
        Some(seconds)
    } else if sign == b'-' {
        Some(-seconds)
    } else {
        None
    }
}

/// The seconds of the offset that is the text: `Z`, or a sign and hh:mm.
#[tactic(auto, unfolding(crate::specs::Timestamps::offset_of))]
pub fn offset_of(text: &[u8]) -> Option<i64>
    ensures value { result ≡ specs.offset_of text.now }
    ensures small { IfSome result (λ z. (negsuc 86399 ≤ℤ z) × (z ≤ℤ pos 86399)) }
{
    if has_at(text, 0, b'Z') {
        if text.len() == 1 { Some(0) } else { None }
    } else if text.len() == 6 {
        let minutes = minutes_at(1, text)?;
        signed(byte_at(text, 0), minutes)
    } else {
        None
    }
}
