//! Arithmetic, sign extension, byte swaps and comparisons of words.

use AluOp::{Add, And, Arsh, Div, Lsh, Mod, Mov, Mul, Or, Rsh, Sdiv, Smod, Sub, Xor};
use Comparison::{Eq, Ge, Gt, Le, Lt, Ne, Set, Sge, Sgt, Sle, Slt};
use SignedSize::{B, H, W};
use SwapWidth::{Bits16, Bits32, Bits64};
use bpf_word::{alu32, alu64, holds, sext, swap};
use insn_codec::{AluOp, Comparison, SignedSize, SwapWidth};

const LEAST: u64 = 0x8000_0000_0000_0000;

/// The operation, the destination, the operand and the result.
type Row = (AluOp, u64, u64, u64);

/// They include divisors of zero, the least value by -1, and shifts by the width and more.
const ROWS_OF_64: [Row; 50] = [
    (Add, 5, 2, 7),
    (Add, u64::MAX, 1, 0),
    (Add, LEAST, 0x8000_0000_0000_0001, 1),
    (Sub, 5, 2, 3),
    (Sub, 2, 5, 0xffff_ffff_ffff_fffd),
    (Sub, 0, LEAST, LEAST),
    (Mul, 7, 6, 42),
    (Mul, 0x1_0000_0001, 0x1_0000_0001, 0x2_0000_0001),
    (Mul, u64::MAX, u64::MAX, 1),
    (Or, 0x0f0f, 0x00ff, 0x0fff),
    (Or, LEAST, 1, 0x8000_0000_0000_0001),
    (And, 0x0f0f, 0x00ff, 0x000f),
    (And, u64::MAX, LEAST, LEAST),
    (Xor, 0x0f0f, 0x00ff, 0x0ff0),
    (Xor, u64::MAX, LEAST, 0x7fff_ffff_ffff_ffff),
    (Mov, 5, 2, 2),
    (Mov, 5, u64::MAX, u64::MAX),
    (Div, 7, 2, 3),
    (Div, 7, 0, 0),
    (Div, 5, u64::MAX, 0),
    (Div, u64::MAX, 2, 0x7fff_ffff_ffff_ffff),
    (Sdiv, 7, 2, 3),
    (Sdiv, 0xffff_ffff_ffff_fff9, 2, 0xffff_ffff_ffff_fffd),
    (Sdiv, 7, 0xffff_ffff_ffff_fffe, 0xffff_ffff_ffff_fffd),
    (Sdiv, 0xffff_ffff_ffff_fff9, 0xffff_ffff_ffff_fffe, 3),
    (Sdiv, 0xffff_ffff_ffff_fff9, 0, 0),
    (Sdiv, LEAST, u64::MAX, LEAST),
    (Mod, 7, 3, 1),
    (Mod, u64::MAX, 10, 5),
    (Mod, 0xffff_ffff_0000_0007, 0, 0xffff_ffff_0000_0007),
    (Smod, 0xffff_ffff_ffff_fff3, 3, u64::MAX),
    (Smod, 13, 0xffff_ffff_ffff_fffd, 1),
    (Smod, 0xffff_ffff_ffff_fff3, 0xffff_ffff_ffff_fffd, u64::MAX),
    (Smod, 0xffff_ffff_ffff_fff3, 0, 0xffff_ffff_ffff_fff3),
    (Smod, LEAST, u64::MAX, 0),
    (Lsh, 1, 32, 0x1_0000_0000),
    (Lsh, 3, 63, LEAST),
    (Lsh, 1, 64, 1),
    (Lsh, 1, 65, 2),
    (Lsh, 1, u64::MAX, LEAST),
    (Rsh, u64::MAX, 4, 0x0fff_ffff_ffff_ffff),
    (Rsh, LEAST, 63, 1),
    (Rsh, LEAST, 64, LEAST),
    (Rsh, LEAST, 127, 1),
    (Arsh, LEAST, 63, u64::MAX),
    (Arsh, LEAST, 64, LEAST),
    (Arsh, LEAST, 65, 0xc000_0000_0000_0000),
    (Arsh, 0xffff_ffff_ffff_fff3, 1, 0xffff_ffff_ffff_fff9),
    (Arsh, 13, 1, 6),
    (Arsh, 0x4000_0000_0000_0000, 62, 1),
];

#[test]
fn operations_on_64_bits(rt: HostRuntime) {
    for &(operation, dst, operand, result) in &ROWS_OF_64 {
        let word = alu64(operation, dst, operand);
        assert!(rt; word == result, "{operation:?} {dst} {operand}");
    }
}

/// Operations on the low halves; the upper halves do not affect the result.
const ROWS_OF_32: [Row; 31] = [
    (Add, 0xffff_ffff, 1, 0),
    (Add, 0xaaaa_aaaa_0000_0005, 0xbbbb_bbbb_0000_0002, 7),
    (Sub, 2, 5, 0xffff_fffd),
    (Mul, 0x1_0001, 0x1_0001, 0x2_0001),
    (Or, 0xffff_ffff_0000_0f0f, 0xff, 0xfff),
    (And, u64::MAX, u64::MAX, 0xffff_ffff),
    (Xor, 0xffff_ffff_0000_0f0f, 0xff, 0xff0),
    (Mov, 5, u64::MAX, 0xffff_ffff),
    (Div, 0x5_0000_0007, 0x9_0000_0002, 3),
    (Div, 7, 0x1_0000_0000, 0),
    (Sdiv, 0xffff_fff9, 2, 0xffff_fffd),
    (Sdiv, 0xffff_ffff_0000_0007, 0xffff_fffe, 0xffff_fffd),
    (Sdiv, 7, 0x1_0000_0000, 0),
    (Sdiv, 0x8000_0000, 0xffff_ffff, 0x8000_0000),
    (Mod, 0x1_0000_0007, 4, 3),
    (Mod, 0x1_0000_0007, 0, 7),
    (Smod, 0xffff_fff3, 3, 0xffff_ffff),
    (Smod, 13, 0xffff_fffd, 1),
    (Smod, 0xffff_ffff_ffff_fff3, 0, 0xffff_fff3),
    (Smod, 0x8000_0000, 0xffff_ffff, 0),
    (Lsh, 3, 31, 0x8000_0000),
    (Lsh, 1, 32, 1),
    (Lsh, 1, 33, 2),
    (Lsh, 1, 63, 0x8000_0000),
    (Rsh, 0xffff_ffff_8000_0000, 31, 1),
    (Rsh, 0x8000_0000, 32, 0x8000_0000),
    (Rsh, 0x1_0000_0000, 1, 0),
    (Arsh, 0x8000_0000, 31, 0xffff_ffff),
    (Arsh, 0x8000_0000, 32, 0x8000_0000),
    (Arsh, 0xffff_fff3, 1, 0xffff_fff9),
    (Arsh, 0xffff_ffff_7fff_ffff, 30, 1),
];

#[test]
fn operations_on_32_bits(rt: HostRuntime) {
    for &(operation, dst, operand, result) in &ROWS_OF_32 {
        let word = alu32(operation, dst, operand);
        assert!(rt; word == result, "{operation:?} {dst} {operand}");
    }
}

/// The bits that are read, a word and the extended word.
const EXTENSIONS: [(SignedSize, u64, u64); 8] = [
    (B, 0x7f, 0x7f),
    (B, 0x80, 0xffff_ffff_ffff_ff80),
    (B, 0xabcd_ef01_2345_6701, 1),
    (H, 0x7fff, 0x7fff),
    (H, 0x1_8000, 0xffff_ffff_ffff_8000),
    (W, 0x7fff_ffff, 0x7fff_ffff),
    (W, 0x8000_0000, 0xffff_ffff_8000_0000),
    (W, 0xffff_ffff_0000_0001, 1),
];

#[test]
fn extends_signs(rt: HostRuntime) {
    for &(bits, word, extended) in &EXTENSIONS {
        assert!(rt; sext(bits, word) == extended, "{bits:?} {word}");
    }
}

/// The bits that are read, a word and the swapped word.
const SWAPS: [(SwapWidth, u64, u64); 6] = [
    (Bits16, 0x1234, 0x3412),
    (Bits16, 0xffff_ffff_ffff_1234, 0x3412),
    (Bits32, 0x1234, 0x3412_0000),
    (Bits32, 0xffff_ffff_1234_5678, 0x7856_3412),
    (Bits64, 1, 0x0100_0000_0000_0000),
    (Bits64, 0x0123_4567_89ab_cdef, 0xefcd_ab89_6745_2301),
];

#[test]
fn swaps_bytes(rt: HostRuntime) {
    for &(width, word, swapped) in &SWAPS {
        assert!(rt; swap(width, word) == swapped, "{width:?} {word}");
    }
}

/// A comparison, its left word, its right word and whether it holds. Read as signed, the greatest word is -1.
const COMPARISONS: [(Comparison, u64, u64, bool); 25] = [
    (Eq, 5, 5, true),
    (Eq, 0x1_0000_0005, 5, false),
    (Ne, 5, 6, true),
    (Ne, 5, 5, false),
    (Gt, u64::MAX, 1, true),
    (Gt, 1, 1, false),
    (Ge, 1, 1, true),
    (Ge, 0, u64::MAX, false),
    (Lt, 1, u64::MAX, true),
    (Lt, 1, 1, false),
    (Le, 1, 1, true),
    (Le, u64::MAX, 1, false),
    (Set, 6, 2, true),
    (Set, 6, 1, false),
    (Set, LEAST, LEAST, true),
    (Sgt, 1, u64::MAX, true),
    (Sgt, u64::MAX, LEAST, true),
    (Sgt, 1, 1, false),
    (Sge, 1, 1, true),
    (Sge, LEAST, 0, false),
    (Slt, u64::MAX, 1, true),
    (Slt, LEAST, u64::MAX, true),
    (Slt, 1, 1, false),
    (Sle, 1, 1, true),
    (Sle, 0, u64::MAX, false),
];

#[test]
fn compares(rt: HostRuntime) {
    for &(comparison, left, right, result) in &COMPARISONS {
        let is_so = holds(comparison, left, right);
        assert!(rt; is_so == result, "{comparison:?} {left} {right}");
    }
}
