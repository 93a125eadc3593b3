//! Finding where two texts differ.
ghost use Rattle.std.specs.Prelude.{◌≡◌, ◌==◌, not};
ghost use Rattle.std.specs.Simd.Lanes.{mask_l, zip2};
ghost use Rattle.text_kernels.specs.Scans.{first_difference_of};

use std::simd::prelude::*;

/// The first position at which the two differ, or the shorter one's length if there is none.
pub fn first_difference(left: &[u8], right: &[u8]) -> usize
    ensures { result ≡ first_difference_of left.now right.now }
{
    let shorter = left.len().min(right.len());
    let mut at = 0;
    while shorter - at >= 32 {
        let found = differing(
            u8x32::from_slice(&left[at..]),
            u8x32::from_slice(&right[at..]),
        );
        if found != 0 {
            return at + found.trailing_zeros() as usize;
        }
        at += 32;
    }
    at + differ_slowly(&left[at..], &right[at..])
}

// A bit for each position, set if the two differ there.
#[inline(always)]
fn differing(left: u8x32, right: u8x32) -> u64
    ensures { result ≡ mask_l (zip2 (λ x y. not (x == y)) left right) }
{
    left.simd_ne(right).to_bitmask()
}

#[inline(always)]
fn differ_slowly(left: &[u8], right: &[u8]) -> usize
    ensures { result ≡ first_difference_of left.now right.now }
{
    let mut at = 0;
    while at < left.len() && at < right.len() && left[at] == right[at] {
        at += 1;
    }
    at
}
