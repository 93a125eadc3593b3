//! Arithmetic instructions.

use super::{EXIT, answer, wide};
use bpf_machine::Status;
use std::alloc::Global;

/// R1, R2, a slot, and the value of R0 after that slot, `r0 = r1` and `exit`.
type Row = (u64, u64, u64, u64);

/// The status after `r1 = dst`, `r2 = operand`, the slot, `r0 = r1` and `exit`.
fn status_after(alloc: Global, dst: u64, operand: u64, slot: u64) -> Option<Status> {
    let [dst_low, dst_high] = wide(1, dst);
    let [operand_low, operand_high] = wide(2, operand);
    let slots = [
        dst_low,
        dst_high,
        operand_low,
        operand_high,
        slot,
        0xbf10_0000_0000_0000,
        EXIT,
    ];
    let (_, status) = answer(alloc, &slots, &[])?;
    Some(status)
}

/// The number of rows before the first with another result.
fn right_rows(alloc: Global, rows: &[Row]) -> usize {
    for (row, &(dst, operand, slot, r0)) in rows.iter().enumerate() {
        if status_after(alloc, dst, operand, slot) != Some(Status::Exited(r0)) {
            return row;
        }
    }
    rows.len()
}

/// Add, sub, mul, div, sdiv, or, and, lsh, rsh, mod, smod, xor, mov, arsh: the opcode for 64 bits with an
/// immediate, the offset and the immediate, R1 and R2, and the value of R1 afterwards with the immediate
/// and with R2, for 64 bits and for the low halves.
#[rattlefmt::skip]
const OPERATIONS: [((u8, u8, i32), (u64, u64), [u64; 2], [u64; 2]); 14] = [
    ((0x07, 0, -1), (0xffff_ffff_ffff_fff0, 0x20), [0xffff_ffff_ffff_ffef, 0x10], [0xffff_ffef, 0x10]),
    ((0x17, 0, 7), (5, 0x1_0000_0007), [0xffff_ffff_ffff_fffe, 0xffff_fffe_ffff_fffe], [0xffff_fffe, 0xffff_fffe]),
    ((0x27, 0, -2), (0x1_0000_0003, 0x8000_0001_0000_0002), [0xffff_fffd_ffff_fffa, 0x8000_0005_0000_0006], [0xffff_fffa, 6]),
    ((0x37, 0, 2), (0x8000_0000_0000_0009, 0x1_0000_0002), [0x4000_0000_0000_0004, 0x7fff_ffff], [4, 4]),
    ((0x37, 1, -4), (0xffff_fff2_ffff_fff3, 3), [0x3_4000_0003, 0xffff_fffb_aaaa_aaa7], [3, 0xffff_fffc]),
    ((0x47, 0, -256), (0xf00_0000_0000_000f, 0x10_0000_00f0), [0xffff_ffff_ffff_ff0f, 0xf00_0010_0000_00ff], [0xffff_ff0f, 0xff]),
    ((0x57, 0, -4096), (0xff00_ff00_ff00_ff00, 0xff0_0ff0_0ff0_0ff0), [0xff00_ff00_ff00_f000, 0xf00_0f00_0f00_0f00], [0xff00_f000, 0xf00_0f00]),
    ((0x67, 0, 4), (0x1_8000_0001, 0x21), [0x18_0000_0010, 0x2_0000_0000], [0x10, 2]),
    ((0x77, 0, 36), (0x8000_0001_8000_0000, 0x21), [0x800_0000, 0x4000_0000], [0x800_0000, 0x4000_0000]),
    ((0x97, 0, 4), (0x1_0000_000d, 0x1_0000_0005), [1, 8], [1, 3]),
    ((0x97, 1, 3), (0xffff_ffff_ffff_fff3, 0x1_0000_0005), [0xffff_ffff_ffff_ffff, 0xffff_ffff_ffff_fff3], [0xffff_ffff, 0xffff_fffd]),
    ((0xa7, 0, -1), (0xaaaa_aaaa_aaaa_aaaa, 0xffff_0000_ffff_0000), [0x5555_5555_5555_5555, 0x5555_aaaa_5555_aaaa], [0x5555_5555, 0x5555_aaaa]),
    ((0xb7, 0, -2), (7, 0x1234_5678_9abc_def0), [0xffff_ffff_ffff_fffe, 0x1234_5678_9abc_def0], [0xffff_fffe, 0x9abc_def0]),
    ((0xc7, 0, 4), (0x8000_0000_8000_0000, 0x23), [0xf800_0000_0800_0000, 0xffff_ffff_f000_0000], [0xf800_0000, 0xf000_0000]),
];

/// The slots of an operation with an immediate and with R2, for 64 bits and for 32.
fn slots(opcode: u8, offset: u8, imm: i32) -> [u64; 4] {
    let [a, b, c, d] = imm.to_le_bytes();
    let [whole, half] = [opcode, opcode ^ 3];
    [
        u64::from_be_bytes([whole, 0x01, offset, 0, a, b, c, d]),
        u64::from_be_bytes([whole | 8, 0x21, offset, 0, 0, 0, 0, 0]),
        u64::from_be_bytes([half, 0x01, offset, 0, a, b, c, d]),
        u64::from_be_bytes([half | 8, 0x21, offset, 0, 0, 0, 0, 0]),
    ]
}

/// The number of the operation's slots before the first with another result.
fn right_slots(
    alloc: Global,
    [first, second, third, fourth]: [u64; 4],
    (dst, operand): (u64, u64),
    [imm_64, reg_64]: [u64; 2],
    [imm_32, reg_32]: [u64; 2],
) -> usize {
    let rows = [
        (dst, operand, first, imm_64),
        (dst, operand, second, reg_64),
        (dst, operand, third, imm_32),
        (dst, operand, fourth, reg_32),
    ];
    right_rows(alloc, &rows)
}

#[test]
fn operations(rt: HostRuntime) {
    for &((opcode, offset, imm), words, of_64, of_32) in &OPERATIONS {
        let right = right_slots(rt.alloc(), slots(opcode, offset, imm), words, of_64, of_32);
        assert!(rt; right == 4, "{opcode:x}, slot {right}");
    }
}

/// Sign-extending moves from 8, 16, 8, 16 and 32 bits, negations, and le, be and swap of 16, 32 and 64 bits.
#[rattlefmt::skip]
const SIGNS_AND_BYTE_ORDER: [Row; 16] = [
    (7, 0x1_8000_8080, 0xbc21_0800_0000_0000, 0xffff_ff80),
    (7, 0x1_8000_8080, 0xbc21_1000_0000_0000, 0xffff_8080),
    (7, 0x1_8000_8080, 0xbf21_0800_0000_0000, 0xffff_ffff_ffff_ff80),
    (7, 0x1_8000_8080, 0xbf21_1000_0000_0000, 0xffff_ffff_ffff_8080),
    (7, 0x1_8000_8080, 0xbf21_2000_0000_0000, 0xffff_ffff_8000_8080),
    (0x1_0000_0001, 0, 0x8401_0000_0000_0000, 0xffff_ffff),
    (0x1_0000_0001, 0, 0x8701_0000_0000_0000, 0xffff_fffe_ffff_ffff),
    (0x1122_3344_8899_aabb, 0, 0xd401_0000_1000_0000, 0xaabb),
    (0x1122_3344_8899_aabb, 0, 0xd401_0000_2000_0000, 0x8899_aabb),
    (0x1122_3344_8899_aabb, 0, 0xd401_0000_4000_0000, 0x1122_3344_8899_aabb),
    (0x1122_3344_8899_aabb, 0, 0xdc01_0000_1000_0000, 0xbbaa),
    (0x1122_3344_8899_aabb, 0, 0xdc01_0000_2000_0000, 0xbbaa_9988),
    (0x1122_3344_8899_aabb, 0, 0xdc01_0000_4000_0000, 0xbbaa_9988_4433_2211),
    (0x1122_3344_8899_aabb, 0, 0xd701_0000_1000_0000, 0xbbaa),
    (0x1122_3344_8899_aabb, 0, 0xd701_0000_2000_0000, 0xbbaa_9988),
    (0x1122_3344_8899_aabb, 0, 0xd701_0000_4000_0000, 0xbbaa_9988_4433_2211),
];

#[test]
fn signs_and_byte_order(rt: HostRuntime) {
    let right = right_rows(rt.alloc(), &SIGNS_AND_BYTE_ORDER);
    assert!(rt; right == 16, "row {right}");
}

/// Every kind of division by zero, the least value by -1, a large unsigned divisor, and shifts by the width and more.
#[rattlefmt::skip]
const EDGES: [Row; 17] = [
    (0x1_0000_0007, 0, 0x3f21_0000_0000_0000, 0),
    (0x1_0000_0007, 0x5_0000_0000, 0x3c21_0000_0000_0000, 0),
    (0x1_0000_0007, 0, 0x3f21_0100_0000_0000, 0),
    (0x1_0000_0007, 0x5_0000_0000, 0x3c21_0100_0000_0000, 0),
    (0x1_0000_0007, 0, 0x9f21_0000_0000_0000, 0x1_0000_0007),
    (0x1_0000_0007, 0x5_0000_0000, 0x9c21_0000_0000_0000, 7),
    (0x1_0000_0007, 0, 0x9f21_0100_0000_0000, 0x1_0000_0007),
    (0x1_0000_0007, 0x5_0000_0000, 0x9c21_0100_0000_0000, 7),
    (0x8000_0000_0000_0000, 0, 0x3701_0100_ffff_ffff, 0x8000_0000_0000_0000),
    (0x8000_0000_0000_0000, 0, 0x9701_0100_ffff_ffff, 0),
    (5, 0, 0x3701_0000_ffff_ffff, 0),
    (0x8000_0000, 0xffff_ffff_ffff_ffff, 0x3c21_0100_0000_0000, 0x8000_0000),
    (0x8000_0000, 0xffff_ffff_ffff_ffff, 0x9c21_0100_0000_0000, 0),
    (1, 0x40, 0x6f21_0000_0000_0000, 1),
    (0x8000_0000_0000_0000, 0x7f, 0x7f21_0000_0000_0000, 1),
    (0x8000_0000_0000_0000, 0, 0xc701_0000_ffff_ffff, 0xffff_ffff_ffff_ffff),
    (1, 0x20, 0x6c21_0000_0000_0000, 1),
];

#[test]
fn edges(rt: HostRuntime) {
    let right = right_rows(rt.alloc(), &EDGES);
    assert!(rt; right == 17, "row {right}");
}
