//! Counting the code points of a text.
ghost use Rattle.std.specs.Prelude.{◌≡◌, ◌+◌, ◌≤◌, length, map};
ghost use Rattle.std.specs.Simd.Lanes.{chunk, mask_l};
ghost use Rattle.text_kernels.specs.Scans.{code_points_of, is_leading};

use std::simd::prelude::*;

/// The number of bytes outside `0x80..=0xbf`, the bytes that continue a character. In well-formed UTF-8 this
/// is the number of code points (RFC 3629, section 3).
pub fn code_points(bytes: &[u8]) -> usize
    ensures { result ≡ code_points_of bytes.now }
{
    let mut count = 0;
    let mut at = 0;
    while bytes.len() - at >= 32 {
        count += count_in_block(bytes, at);
        at += 32;
    }
    count + count_slowly(&bytes[at..])
}

// The number of code points that begin in the 32 bytes from `at` on.
#[inline(always)]
fn count_in_block(bytes: &[u8], at: usize) -> usize
    requires { at + 32 ≤ length bytes.now }
    ensures { result ≡ code_points_of (chunk at 32 bytes.now) }
{
    leading(u8x32::from_slice(&bytes[at..])).count_ones() as usize
}

// A bit for each byte, set if it begins a character.
#[inline(always)]
fn leading(lanes: u8x32) -> u64
    ensures { result ≡ mask_l (map is_leading lanes) }
{
    (lanes & u8x32::splat(0xc0))
        .simd_ne(u8x32::splat(0x80))
        .to_bitmask()
}

#[inline(always)]
fn count_slowly(bytes: &[u8]) -> usize
    ensures { result ≡ code_points_of bytes.now }
{
    bytes
        .iter()
        .filter(|&&byte| byte < 0x80 || byte > 0xbf)
        .count()
}
