//! Listings that were made by hand.
use disassembler::{DisError, line_at, listing};
use std::alloc::Global;
use std::test::Fail;

/// A slot for each row of the instruction table, as its bytes in storage order, with its line.
const INSTRUCTIONS: [(u64, &str); 71] = [
    (0x0403_0000_0000_0000, "add32 r3, 0"),
    (0x0c21_0000_0000_0000, "add32 r1, r2"),
    (0x0703_0000_feff_ffff, "add64 r3, -2"),
    (0x0f21_0000_0000_0000, "add64 r1, r2"),
    (0x1400_0000_0100_0000, "sub32 r0, 1"),
    (0x2fa9_0000_0000_0000, "mul64 r9, r10"),
    (0x3c21_0000_0000_0000, "div32 r1, r2"),
    (0x3701_0100_ffff_ffff, "sdiv64 r1, -1"),
    (0x4704_0000_ffff_ff7f, "or64 r4, 2147483647"),
    (0x5405_0000_0000_0080, "and32 r5, -2147483648"),
    (0x6f76_0000_0000_0000, "lsh64 r6, r7"),
    (0x7708_0000_3f00_0000, "rsh64 r8, 63"),
    (0x9c21_0000_0000_0000, "mod32 r1, r2"),
    (0x9701_0100_ffff_ffff, "smod64 r1, -1"),
    (0xac33_0000_0000_0000, "xor32 r3, r3"),
    (0xb700_0000_0500_0000, "mov64 r0, 5"),
    (0xc402_0000_1f00_0000, "arsh32 r2, 31"),
    (0x840a_0000_0000_0000, "neg32 r10"),
    (0x8703_0000_0000_0000, "neg64 r3"),
    (0xbc21_0800_0000_0000, "movsx8to32 r1, r2"),
    (0xbc21_1000_0000_0000, "movsx16to32 r1, r2"),
    (0xbf21_0800_0000_0000, "movsx8to64 r1, r2"),
    (0xbf21_1000_0000_0000, "movsx16to64 r1, r2"),
    (0xbf21_2000_0000_0000, "movsx32to64 r1, r2"),
    (0xd401_0000_1000_0000, "le16 r1"),
    (0xd401_0000_2000_0000, "le32 r1"),
    (0xd401_0000_4000_0000, "le64 r1"),
    (0xdc01_0000_1000_0000, "be16 r1"),
    (0xdc01_0000_2000_0000, "be32 r1"),
    (0xdc01_0000_4000_0000, "be64 r1"),
    (0xd701_0000_1000_0000, "swap16 r1"),
    (0xd701_0000_2000_0000, "swap32 r1"),
    (0xd701_0000_4000_0000, "swap64 r1"),
    (0x1501_fdff_0700_0000, "jeq64 r1, 7, -3"),
    (0x2d21_0201_0000_0000, "jgt64 r1, r2, +258"),
    (0x3601_0000_ffff_ffff, "jge32 r1, -1, +0"),
    (0x4e21_0100_0000_0000, "jset32 r1, r2, +1"),
    (0x5501_ffff_0000_0000, "jne64 r1, 0, -1"),
    (0x650a_0080_0100_0000, "jsgt64 r10, 1, -32768"),
    (0x7d21_ff7f_0000_0000, "jsge64 r1, r2, +32767"),
    (0xa602_0c00_0900_0000, "jlt32 r2, 9, +12"),
    (0xbe43_0a00_0000_0000, "jle32 r3, r4, +10"),
    (0xc506_0200_18fc_ffff, "jslt64 r6, -1000, +2"),
    (0xdd87_f6ff_0000_0000, "jsle64 r7, r8, -10"),
    (0x0500_ff7f_0000_0000, "ja +32767"),
    (0x0500_0080_0000_0000, "ja -32768"),
    (0x0600_0000_ffff_ff7f, "ja32 +2147483647"),
    (0x0600_0000_0000_0080, "ja32 -2147483648"),
    (0x8500_0000_0600_0000, "call 6"),
    (0x8500_0000_ffff_ffff, "call -1"),
    (0x8510_0000_ffff_ffff, "call_local -1"),
    (0x8510_0000_0000_0000, "call_local +0"),
    (0x9500_0000_0000_0000, "exit"),
    (0x71a1_f8ff_0000_0000, "ldxb r1, [r10-8]"),
    (0x69a1_f8ff_0000_0000, "ldxh r1, [r10-8]"),
    (0x61a1_f8ff_0000_0000, "ldxw r1, [r10-8]"),
    (0x79a1_f8ff_0000_0000, "ldxdw r1, [r10-8]"),
    (0x9121_0400_0000_0000, "ldxsb r1, [r2+4]"),
    (0x8921_0400_0000_0000, "ldxsh r1, [r2+4]"),
    (0x8121_0400_0000_0000, "ldxsw r1, [r2+4]"),
    (0x7202_0000_ffff_ffff, "stb [r2+0], -1"),
    (0x6a02_0000_ffff_ffff, "sth [r2+0], -1"),
    (0x6202_0000_ffff_ffff, "stw [r2+0], -1"),
    (0x7a02_0000_ffff_ffff, "stdw [r2+0], -1"),
    (0x7321_f807_0000_0000, "stxb [r1+2040], r2"),
    (0x6b21_f807_0000_0000, "stxh [r1+2040], r2"),
    (0x6321_f807_0000_0000, "stxw [r1+2040], r2"),
    (0x7b21_f807_0000_0000, "stxdw [r1+2040], r2"),
    (0xdb1a_f8ff_0100_0000, "atomic_fetch_add64 [r10-8], r1"),
    (0xc31a_f8ff_f100_0000, "atomic_cmpxchg32 [r10-8], r1"),
    (0xdba1_0000_e100_0000, "atomic_xchg64 [r1+0], r10"),
];

/// Slots that encode no instruction.
const SLOTS: [(u64, &str); 9] = [
    (0x0000_0000_0000_0000, ".slot 0x0000000000000000"),
    (0xffff_ffff_ffff_ffff, ".slot 0xffffffffffffffff"),
    (0x0123_4567_89ab_cdef, ".slot 0x0123456789abcdef"),
    (0x0f21_0100_0000_0000, ".slot 0x0f21010000000000"),
    (0xb70b_0000_0000_0000, ".slot 0xb70b000000000000"),
    (0x9500_0000_0000_0001, ".slot 0x9500000000000001"),
    (0xdb1a_f8ff_f000_0000, ".slot 0xdb1af8fff0000000"),
    (0x1800_0000_0000_0000, ".slot 0x1800000000000000"),
    (0x1810_0000_0000_0000, ".slot 0x1810000000000000"),
];

/// Code and its listing.
#[rattlefmt::skip]
const LISTINGS: [(&[u8], &str); 6] = [
    (b"", ""),
    (b"\xb7\0\0\0\x05\0\0\0\x95\0\0\0\0\0\0\0", "mov64 r0, 5\nexit\n"),
    (b"\x18\0\0\0\0\0\0\0", ".slot 0x1800000000000000\n"),
    (b"\x05\0\x01\0\0\0\0\0\x18\0\0\0\x05\0\0\0\0\0\0\0\0\0\0\0\x95\0\0\0\0\0\0\0", "ja +1\nlddw r0, 0x0000000000000005\nexit\n"),
    (b"\x18\x0a\0\0\xef\xcd\xab\x89\0\0\0\0\x67\x45\x23\x01", "lddw r10, 0x0123456789abcdef\n"),
    (b"\x18\x01\0\0\x05\0\0\0\0\x01\0\0\0\0\0\0", ".slot 0x1801000005000000\n.slot 0x0001000000000000\n"),
];

/// Whether the code has this line, for this number of slots, at a slot.
fn has_line(alloc: Global, code: &[u8], slot: u64, line: &str, slots: u64) -> bool {
    if slot >= code.len() as u64 / 8 {
        return false;
    }
    match line_at(alloc, code, slot) {
        Ok((text, count)) => text.as_str() == line && count == slots,
        Err(_) => false,
    }
}

/// Whether the listing of the code is this line alone.
fn lists_only(alloc: Global, code: &[u8], line: &str) -> bool {
    match listing(alloc, code) {
        Ok(text) => text.as_str().strip_suffix('\n') == Some(line),
        Err(_) => false,
    }
}

/// Whether the code of a single slot has only this line.
fn lists(alloc: Global, slot: u64, line: &str) -> bool {
    let code = slot.to_be_bytes();
    lists_only(alloc, &code, line) && has_line(alloc, &code, 0, line, 1)
}

#[test]
fn each_instruction_has_its_line(rt: HostRuntime) {
    for &(slot, line) in &INSTRUCTIONS {
        assert!(rt; lists(rt.alloc(), slot, line), "lists {line}");
    }
}

#[test]
fn each_other_slot_has_its_line(rt: HostRuntime) {
    for &(slot, line) in &SLOTS {
        assert!(rt; lists(rt.alloc(), slot, line), "lists {line}");
    }
}

/// Whether the code has this listing.
fn has_listing(alloc: Global, code: &[u8], text: &str) -> bool {
    match listing(alloc, code) {
        Ok(found) => found.as_str() == text,
        Err(_) => false,
    }
}

#[test]
fn code_has_its_listing(rt: HostRuntime) {
    for (code, text) in &LISTINGS {
        assert!(rt; has_listing(rt.alloc(), code, text), "{text}");
    }
}

/// Lengths in bytes of code that has no listing; both errors apply to the last.
const LENGTHS: [(usize, DisError); 3] = [
    (12, DisError::PartialSlot),
    (524_296, DisError::CodeTooLong),
    (524_300, DisError::PartialSlot),
];

#[test]
fn refuses_lengths(rt: HostRuntime) -> Result<(), Fail> {
    for &(length, error) in &LENGTHS {
        let code = vec![in rt.alloc(); 0; length]?;
        let lists = listing(rt.alloc(), &code).err();
        let reads = line_at(rt.alloc(), &code, 0).err();
        assert!(rt; lists == Some(error) && reads == Some(error), "{length}");
    }
    Ok(())
}

/// The longest code, of slots that encode no instruction: each line has 25 bytes.
#[test]
fn lists_the_longest_code(rt: HostRuntime) -> Result<(), Fail> {
    let code = vec![in rt.alloc(); 0; 524_288]?;
    assert!(rt; listing(rt.alloc(), &code)?.len() == 1_638_400);
    Ok(())
}
