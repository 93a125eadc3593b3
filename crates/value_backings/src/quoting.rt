//! Lengths of texts in JSON, in bytes, each capped at 2^64 - 1.

ghost use Rattle.std.specs.Prelude.{◌≡◌, length};
ghost use Rattle.json.specs.Print.{quoted, escape_byte};
ghost use Rattle.value_store.specs.Plain.{saturated};

use crate::plain::is_plain;

/// The length of a text in JSON, with its quotes and escapes.
pub(crate) fn quoted_length(text: &[u8]) -> u64
    ensures { result ≡ saturated (length (quoted text.now)) }
{
    if is_plain(text) {
        return 2u64.saturating_add(text.len() as u64);
    }
    counted_length(text)
}

// `quoted_length`, byte by byte.
fn counted_length(text: &[u8]) -> u64
    ensures { result ≡ saturated (length (quoted text.now)) }
{
    let mut length = 2u64;
    for byte in text {
        length = length.saturating_add(escaped_length(*byte));
    }
    length
}

// The length of each byte in a JSON text. A table is faster than a branch for each byte.
static ESCAPED: [u8; 256] = [
    6, 6, 6, 6, 6, 6, 6, 6, 2, 2, 2, 6, 2, 2, 6, 6, 6, 6, 6, 6, 6, 6, 6, 6, 6, 6, 6, 6, 6, 6, 6, 6,
    1, 1, 2, 1, 1, 1, 1, 1, 1, 1, 1, 1, 1, 1, 1, 1, 1, 1, 1, 1, 1, 1, 1, 1, 1, 1, 1, 1, 1, 1, 1, 1,
    1, 1, 1, 1, 1, 1, 1, 1, 1, 1, 1, 1, 1, 1, 1, 1, 1, 1, 1, 1, 1, 1, 1, 1, 1, 1, 1, 1, 2, 1, 1, 1,
    1, 1, 1, 1, 1, 1, 1, 1, 1, 1, 1, 1, 1, 1, 1, 1, 1, 1, 1, 1, 1, 1, 1, 1, 1, 1, 1, 1, 1, 1, 1, 1,
    1, 1, 1, 1, 1, 1, 1, 1, 1, 1, 1, 1, 1, 1, 1, 1, 1, 1, 1, 1, 1, 1, 1, 1, 1, 1, 1, 1, 1, 1, 1, 1,
    1, 1, 1, 1, 1, 1, 1, 1, 1, 1, 1, 1, 1, 1, 1, 1, 1, 1, 1, 1, 1, 1, 1, 1, 1, 1, 1, 1, 1, 1, 1, 1,
    1, 1, 1, 1, 1, 1, 1, 1, 1, 1, 1, 1, 1, 1, 1, 1, 1, 1, 1, 1, 1, 1, 1, 1, 1, 1, 1, 1, 1, 1, 1, 1,
    1, 1, 1, 1, 1, 1, 1, 1, 1, 1, 1, 1, 1, 1, 1, 1, 1, 1, 1, 1, 1, 1, 1, 1, 1, 1, 1, 1, 1, 1, 1, 1,
];

#[inline(always)]
fn escaped_length(byte: u8) -> u64
    ensures { result ≡ length (escape_byte byte) }
{
    ESCAPED[byte as usize] as u64
}
