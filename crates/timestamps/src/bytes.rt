//! Bytes, digits and numbers of two digits at places of a text.
ghost use Rattle.std.specs.Prelude.{◌≡◌, ◌<◌, IfSome, slice_index};
ghost use Rattle.timestamps.specs.Timestamps as specs;

/// The byte at a place, or 0 after the end.
pub fn byte_at(text: &[u8], at: usize) -> u8
    ensures { result ≡ slice_index text.now at }
{
    if at < text.len() { text[at] } else { 0 }
}

/// Whether this byte is at this place.
pub fn has_at(text: &[u8], at: usize, byte: u8) -> bool
    ensures { result ≡ specs.has_at text.now at byte }
{
    byte_at(text, at) == byte
}

/// The digit at a place.
fn digit_at(at: usize, text: &[u8]) -> Option<u64>
    ensures value { result ≡ specs.digit_at at text.now }
    ensures small { IfSome result (λ n. n < 10) }
{
    let byte = byte_at(text, at);
    if byte.is_ascii_digit() {
        Some((byte - b'0') as u64)
    } else {
        None
    }
}

/// The number of the two digits from a place on.
#[tactic(auto, unfolding(crate::specs::Timestamps::pair_at))]
pub fn pair_at(at: usize, text: &[u8]) -> Option<u64>
    requires { at < 100 }
    ensures value { result ≡ specs.pair_at at text.now }
    ensures small { IfSome result (λ n. n < 100) }
{
    let tens = digit_at(at, text)?;
    let ones = digit_at(at + 1, text)?;
    Some(10 * tens + ones)
}

/// The minutes of the time of day from a place on.
#[tactic(auto, unfolding(crate::specs::Timestamps::minutes_at))]
pub fn minutes_at(at: usize, text: &[u8]) -> Option<u64>
    requires { at < 50 }
    ensures value { result ≡ specs.minutes_at at text.now }
    ensures small { IfSome result (λ n. n < 1440) }
{
    let hour = pair_at(at, text)?;
    let minute = pair_at(at + 3, text)?;
    if has_at(text, at + 2, b':') && hour < 24 && minute < 60 {
        Some(60 * hour + minute)
    } else {
        None
    }
}
