//! Words and their bytes, the least significant first.
ghost use Rattle.std.specs.Prelude.{◌≡◌, ◌+◌, ◌≤◌, length};
ghost use Rattle.guest_memory.specs.Access.{size_bytes};
ghost use Rattle.guest_memory.specs.Word.{low_bytes, overlay, part, word_of};

use crate::size::Size;

/// The little-endian number in the bytes from `at` on.
#[inline(always)]
pub fn word_at(bytes: &[u8], at: usize, size: Size) -> u64
    requires { at + size_bytes size ≤ length bytes.now }
    ensures { result ≡ word_of (part bytes.now at (size_bytes size)) }
{
    match size {
        Size::B => u64::from(bytes[at]),
        Size::H => u64::from(u16::from_le_bytes(bytes_at(bytes, at))),
        Size::W => u64::from(u32::from_le_bytes(bytes_at(bytes, at))),
        Size::Dw => u64::from_le_bytes(bytes_at(bytes, at)),
    }
}

/// The `N` bytes from `at` on.
#[inline(always)]
fn bytes_at<const N: usize>(bytes: &[u8], at: usize) -> [u8; N]
    requires { at + N ≤ length bytes.now }
    ensures { result ≡ part bytes.now at N }
{
    let mut copy = [0; N];
    copy.copy_from_slice(&bytes[at..at + N]);
    copy
}

/// Writes the low bytes of a word from `at` on.
#[inline(always)]
pub fn put_word<const N: usize>(bytes: &mut [u8; N], at: usize, size: Size, word: u64)
    requires most { N ≤ 65536 }
    requires inside { at + size_bytes size ≤ length bytes.old }
    ensures { bytes.new ≡ overlay bytes.old at (low_bytes (size_bytes size) word) }
{
    match size {
        Size::B => put(bytes, at, &[(word % 0x100) as u8]),
        Size::H => put(bytes, at, &((word % 0x1_0000) as u16).to_le_bytes()),
        Size::W => put(bytes, at, &((word % 0x1_0000_0000) as u32).to_le_bytes()),
        Size::Dw => put(bytes, at, &word.to_le_bytes()),
    }
}

/// Overwrites the bytes from `at` on.
#[inline(always)]
fn put<const N: usize>(bytes: &mut [u8; N], at: usize, others: &[u8])
    requires most { N ≤ 65536 }
    requires inside { at + length others.now ≤ length bytes.old }
    ensures { bytes.new ≡ overlay bytes.old at others.now }
{
    let whole = &mut bytes[..];
    whole[at..at + others.len()].copy_from_slice(others);
}
