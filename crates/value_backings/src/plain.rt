//! Whether a text needs no escape in JSON, eight bytes at a time.

ghost use Rattle.std.specs.Prelude.{◌≡◌, ◌+◌, ◌≤◌, length};
ghost use Rattle.std.specs.Bool.{OnTrue};
ghost use Rattle.json.specs.Print.{escape};
ghost use Rattle.json.specs.Written.{PlainBetween};

use std::simd::prelude::*;

/// Whether no byte of a text is escaped in JSON. A control character, a quote and a backslash are.
pub(crate) fn is_plain(text: &[u8]) -> bool
    ensures { OnTrue result (escape text.now ≡ text.now) }
{
    if text.len() < 8 {
        plain_few(text)
    } else {
        plain_long(text)
    }
}

// The last eight bytes may overlap those before them.
#[inline(always)]
fn plain_long(text: &[u8]) -> bool
    requires { 8 ≤ length text.now }
    ensures { OnTrue result (PlainBetween text.now 0 (length text.now)) }
{
    let mut at = 0;
    while text.len() - at > 8 {
        if !plain_8(text, at) {
            return false;
        }
        at += 8;
    }
    plain_8(text, text.len() - 8)
}

#[inline(always)]
fn plain_few(text: &[u8]) -> bool
    ensures { OnTrue result (PlainBetween text.now 0 (length text.now)) }
{
    for &byte in text {
        if byte == b'"' || byte == b'\\' || byte < 0x20 {
            return false;
        }
    }
    true
}

#[inline(always)]
fn plain_8(text: &[u8], at: usize) -> bool
    requires { at + 8 ≤ length text.now }
    ensures { OnTrue result (PlainBetween text.now at (at + 8)) }
{
    let v = u8x8::from_slice(&text[at..]);
    (v.simd_eq(u8x8::splat(b'"'))
        | v.simd_eq(u8x8::splat(b'\\'))
        | v.simd_lt(u8x8::splat(0x20))).to_bitmask()
        == 0
}
