//! Skipping the plain bytes of a text.
ghost use Rattle.std.specs.Prelude.{◌≡◌, map};
ghost use Rattle.std.specs.Simd.Lanes.{mask_l};
ghost use Rattle.text_kernels.specs.Scans.{is_special, skip_plain_of};

use std::simd::prelude::*;

/// The number of bytes before the first `"`, `'`, `\`, line feed or carriage
/// return, or of all bytes if there is none.
pub fn skip_plain(bytes: &[u8]) -> usize
    ensures { result ≡ skip_plain_of bytes.now }
{
    let mut at = 0;
    while bytes.len() - at >= 32 {
        let found = special(u8x32::from_slice(&bytes[at..]));
        if found != 0 {
            return at + found.trailing_zeros() as usize;
        }
        at += 32;
    }
    at + skip_slowly(&bytes[at..])
}

// A bit for each byte, set if it is special.
#[inline(always)]
fn special(lanes: u8x32) -> u64
    ensures { result ≡ mask_l (map is_special lanes) }
{
    (lanes.simd_eq(u8x32::splat(b'"'))
        | lanes.simd_eq(u8x32::splat(b'\''))
        | lanes.simd_eq(u8x32::splat(b'\\'))
        | lanes.simd_eq(u8x32::splat(b'\n'))
        | lanes.simd_eq(u8x32::splat(b'\r'))).to_bitmask()
}

#[inline(always)]
fn skip_slowly(bytes: &[u8]) -> usize
    ensures { result ≡ skip_plain_of bytes.now }
{
    let mut at = 0;
    while at < bytes.len() && !matches!(bytes[at], b'"' | b'\'' | b'\\' | b'\n' | b'\r') {
        at += 1;
    }
    at
}
