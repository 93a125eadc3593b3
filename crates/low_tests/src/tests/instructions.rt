//! Encodings of instructions, and slots that encode none.

use Register::{R0, R1, R2, R3, R9, R10};
use insn_codec::{
    AluOp, AtomicOp, ByteOrder, Comparison, Extension, Insn, Operand, Register, SignedSize, Size,
    SwapWidth, Width, decode, encode, round_trip,
};

/// Whether these slots encode the instruction, and it has this number of slots.
fn spell(first: u64, second: Option<u64>, insn: Insn, slots: u64) -> bool {
    decode(first, second) == Some(insn) && round_trip(&insn) == Some(insn) && insn.slots() == slots
}

/// Whether the slot encodes the instruction, alone and before any other slot, and the
/// instruction is encoded as it.
fn is_encoded(bytes: [u8; 8], insn: Insn) -> bool {
    let word = u64::from_le_bytes(bytes);
    spell(word, None, insn, 1)
        && spell(word, Some(0), insn, 1)
        && spell(word, Some(u64::MAX), insn, 1)
        && encode(&insn) == (word, None)
}

/// The opcodes of an operation: for 32 bits with an immediate and with a register, and for 64
/// bits. The offset field, and the operation.
const OPERATIONS: [([u8; 4], u8, AluOp); 14] = [
    ([0x04, 0x0c, 0x07, 0x0f], 0, AluOp::Add),
    ([0x14, 0x1c, 0x17, 0x1f], 0, AluOp::Sub),
    ([0x24, 0x2c, 0x27, 0x2f], 0, AluOp::Mul),
    ([0x34, 0x3c, 0x37, 0x3f], 0, AluOp::Div),
    ([0x34, 0x3c, 0x37, 0x3f], 1, AluOp::Sdiv),
    ([0x44, 0x4c, 0x47, 0x4f], 0, AluOp::Or),
    ([0x54, 0x5c, 0x57, 0x5f], 0, AluOp::And),
    ([0x64, 0x6c, 0x67, 0x6f], 0, AluOp::Lsh),
    ([0x74, 0x7c, 0x77, 0x7f], 0, AluOp::Rsh),
    ([0x94, 0x9c, 0x97, 0x9f], 0, AluOp::Mod),
    ([0x94, 0x9c, 0x97, 0x9f], 1, AluOp::Smod),
    ([0xa4, 0xac, 0xa7, 0xaf], 0, AluOp::Xor),
    ([0xb4, 0xbc, 0xb7, 0xbf], 0, AluOp::Mov),
    ([0xc4, 0xcc, 0xc7, 0xcf], 0, AluOp::Arsh),
];

/// Whether the operation has these opcodes with an immediate and with a register.
fn has_operation(immediate: u8, register: u8, offset: u8, op: AluOp, width: Width) -> bool {
    let with_immediate = Insn::Alu {
        op,
        width,
        dst: R3,
        operand: Operand::Imm(-2),
    };
    let with_register = Insn::Alu {
        op,
        width,
        dst: R9,
        operand: Operand::Reg(R10),
    };
    is_encoded(
        [immediate, 0x03, offset, 0, 0xfe, 0xff, 0xff, 0xff],
        with_immediate,
    ) && is_encoded([register, 0xa9, offset, 0, 0, 0, 0, 0], with_register)
}

/// Whether the operation has these opcodes for 32 bits and for 64.
fn has_operations(opcodes: [u8; 4], offset: u8, op: AluOp) -> bool {
    let [imm32, reg32, imm64, reg64] = opcodes;
    has_operation(imm32, reg32, offset, op, Width::W32)
        && has_operation(imm64, reg64, offset, op, Width::W64)
}

#[test]
fn arithmetic(rt: HostRuntime) {
    for &(opcodes, offset, op) in &OPERATIONS {
        assert!(rt; has_operations(opcodes, offset, op), "{op:?}");
    }
}

/// The opcodes of negations.
const NEGATIONS: [(u8, Width); 2] = [(0x84, Width::W32), (0x87, Width::W64)];

/// The opcode of an extension, and its bits, in the offset field.
const EXTENSIONS: [(u8, u8, Extension); 5] = [
    (0xbc, 8, Extension::From8To32),
    (0xbc, 16, Extension::From16To32),
    (0xbf, 8, Extension::From8To64),
    (0xbf, 16, Extension::From16To64),
    (0xbf, 32, Extension::From32To64),
];

/// The opcode of a byte order, and the width, which is in the immediate.
const SWAPS: [(u8, ByteOrder, u8, SwapWidth); 9] = [
    (0xd4, ByteOrder::Little, 16, SwapWidth::Bits16),
    (0xd4, ByteOrder::Little, 32, SwapWidth::Bits32),
    (0xd4, ByteOrder::Little, 64, SwapWidth::Bits64),
    (0xdc, ByteOrder::Big, 16, SwapWidth::Bits16),
    (0xdc, ByteOrder::Big, 32, SwapWidth::Bits32),
    (0xdc, ByteOrder::Big, 64, SwapWidth::Bits64),
    (0xd7, ByteOrder::Swap, 16, SwapWidth::Bits16),
    (0xd7, ByteOrder::Swap, 32, SwapWidth::Bits32),
    (0xd7, ByteOrder::Swap, 64, SwapWidth::Bits64),
];

/// Whether the opcode negates R10.
fn negates(opcode: u8, width: Width) -> bool {
    is_encoded(
        [opcode, 0x0a, 0, 0, 0, 0, 0, 0],
        Insn::Neg { width, dst: R10 },
    )
}

/// Whether the opcode and the bits extend R2 into R1.
fn extends(opcode: u8, bits: u8, extension: Extension) -> bool {
    let insn = Insn::SignExtend {
        extension,
        dst: R1,
        src: R2,
    };
    is_encoded([opcode, 0x21, bits, 0, 0, 0, 0, 0], insn)
}

/// Whether the opcode and the bits order the bytes of R1.
fn orders(opcode: u8, order: ByteOrder, bits: u8, width: SwapWidth) -> bool {
    let insn = Insn::ByteSwap {
        order,
        width,
        dst: R1,
    };
    is_encoded([opcode, 0x01, 0, 0, bits, 0, 0, 0], insn)
}

#[test]
fn arithmetic_of_one_operand(rt: HostRuntime) {
    for &(opcode, width) in &NEGATIONS {
        assert!(rt; negates(opcode, width), "{opcode}");
    }
    for &(opcode, bits, extension) in &EXTENSIONS {
        assert!(rt; extends(opcode, bits, extension), "{opcode} {bits}");
    }
    for &(opcode, order, bits, width) in &SWAPS {
        assert!(rt; orders(opcode, order, bits, width), "{opcode} {bits}");
    }
}

/// The opcodes of a comparison: for 64 bits with an immediate and with a register, and for 32 bits.
const COMPARISONS: [([u8; 4], Comparison); 11] = [
    ([0x15, 0x1d, 0x16, 0x1e], Comparison::Eq),
    ([0x25, 0x2d, 0x26, 0x2e], Comparison::Gt),
    ([0x35, 0x3d, 0x36, 0x3e], Comparison::Ge),
    ([0x45, 0x4d, 0x46, 0x4e], Comparison::Set),
    ([0x55, 0x5d, 0x56, 0x5e], Comparison::Ne),
    ([0x65, 0x6d, 0x66, 0x6e], Comparison::Sgt),
    ([0x75, 0x7d, 0x76, 0x7e], Comparison::Sge),
    ([0xa5, 0xad, 0xa6, 0xae], Comparison::Lt),
    ([0xb5, 0xbd, 0xb6, 0xbe], Comparison::Le),
    ([0xc5, 0xcd, 0xc6, 0xce], Comparison::Slt),
    ([0xd5, 0xdd, 0xd6, 0xde], Comparison::Sle),
];

/// Whether the comparison has these opcodes with an immediate and with a register.
fn has_branch(immediate: u8, register: u8, comparison: Comparison, width: Width) -> bool {
    let with_immediate = Insn::Branch {
        comparison,
        width,
        dst: R1,
        operand: Operand::Imm(7),
        offset: -3,
    };
    let with_register = Insn::Branch {
        comparison,
        width,
        dst: R1,
        operand: Operand::Reg(R2),
        offset: 258,
    };
    is_encoded([immediate, 0x01, 0xfd, 0xff, 7, 0, 0, 0], with_immediate)
        && is_encoded([register, 0x21, 2, 1, 0, 0, 0, 0], with_register)
}

/// Whether the comparison has these opcodes for 64 bits and for 32.
fn has_branches(opcodes: [u8; 4], comparison: Comparison) -> bool {
    let [imm64, reg64, imm32, reg32] = opcodes;
    has_branch(imm64, reg64, comparison, Width::W64)
        && has_branch(imm32, reg32, comparison, Width::W32)
}

#[test]
fn branches(rt: HostRuntime) {
    for &(opcodes, comparison) in &COMPARISONS {
        assert!(rt; has_branches(opcodes, comparison), "{comparison:?}");
    }
}

/// Jumps, calls and the exit.
#[rattlefmt::skip]
const JUMPS: [([u8; 8], Insn); 6] = [
    ([0x05, 0, 0xff, 0x7f, 0, 0, 0, 0], Insn::Jump { offset: 32767 }),
    ([0x05, 0, 0, 0x80, 0, 0, 0, 0], Insn::Jump { offset: -32768 }),
    ([0x06, 0, 0, 0, 0, 0, 0, 0x80], Insn::JumpLong { offset: -2147483648 }),
    ([0x85, 0, 0, 0, 6, 0, 0, 0], Insn::Call { helper: 6 }),
    ([0x85, 0x10, 0, 0, 6, 0, 0, 0], Insn::CallLocal { offset: 6 }),
    ([0x95, 0, 0, 0, 0, 0, 0, 0], Insn::Exit),
];

#[test]
fn jumps_and_calls(rt: HostRuntime) {
    for (bytes, insn) in &JUMPS {
        assert!(rt; is_encoded(*bytes, *insn), "{bytes:?}");
    }
}

/// The opcodes of a size: for a load, a store of an immediate and a store of a register.
const SIZES: [([u8; 3], Size); 4] = [
    ([0x71, 0x72, 0x73], Size::B),
    ([0x69, 0x6a, 0x6b], Size::H),
    ([0x61, 0x62, 0x63], Size::W),
    ([0x79, 0x7a, 0x7b], Size::Dw),
];

/// The opcodes of loads that extend signs.
const SIGNED: [(u8, SignedSize); 3] = [
    (0x91, SignedSize::B),
    (0x89, SignedSize::H),
    (0x81, SignedSize::W),
];

/// Whether the opcode loads from `[r10-8]` into R1.
fn is_load(opcode: u8, size: Size) -> bool {
    let insn = Insn::Load {
        size,
        dst: R1,
        src: R10,
        offset: -8,
    };
    is_encoded([opcode, 0xa1, 0xf8, 0xff, 0, 0, 0, 0], insn)
}

/// Whether the opcode stores -1 at `[r2+4]`.
fn is_immediate_store(opcode: u8, size: Size) -> bool {
    let insn = Insn::StoreImm {
        size,
        dst: R2,
        offset: 4,
        imm: -1,
    };
    is_encoded([opcode, 0x02, 4, 0, 0xff, 0xff, 0xff, 0xff], insn)
}

/// Whether the opcode stores R1 at `[r10+256]`.
fn is_store(opcode: u8, size: Size) -> bool {
    let insn = Insn::Store {
        size,
        dst: R10,
        offset: 256,
        src: R1,
    };
    is_encoded([opcode, 0x1a, 0, 1, 0, 0, 0, 0], insn)
}

/// Whether the size has these opcodes.
fn has_accesses(opcodes: [u8; 3], size: Size) -> bool {
    let [load, store_imm, store] = opcodes;
    is_load(load, size) && is_immediate_store(store_imm, size) && is_store(store, size)
}

/// Whether the opcode loads from `[r2+4]` into R1 and extends the sign.
fn is_signed_load(opcode: u8, size: SignedSize) -> bool {
    let insn = Insn::LoadSigned {
        size,
        dst: R1,
        src: R2,
        offset: 4,
    };
    is_encoded([opcode, 0x21, 4, 0, 0, 0, 0, 0], insn)
}

#[test]
fn loads_and_stores(rt: HostRuntime) {
    for &(opcodes, size) in &SIZES {
        assert!(rt; has_accesses(opcodes, size), "{size:?}");
    }
    for &(opcode, size) in &SIGNED {
        assert!(rt; is_signed_load(opcode, size), "{size:?}");
    }
}

/// The codes of atomic operations, in the imm field.
const ATOMICS: [(u8, AtomicOp); 10] = [
    (0x00, AtomicOp::Add),
    (0x40, AtomicOp::Or),
    (0x50, AtomicOp::And),
    (0xa0, AtomicOp::Xor),
    (0x01, AtomicOp::FetchAdd),
    (0x41, AtomicOp::FetchOr),
    (0x51, AtomicOp::FetchAnd),
    (0xa1, AtomicOp::FetchXor),
    (0xe1, AtomicOp::Exchange),
    (0xf1, AtomicOp::CompareExchange),
];

/// Whether the opcode and the code are those of the operation on `[r10-8]` with R1.
fn is_atomic(opcode: u8, code: u8, op: AtomicOp, width: Width) -> bool {
    let insn = Insn::Atomic {
        op,
        width,
        dst: R10,
        offset: -8,
        src: R1,
    };
    is_encoded([opcode, 0x1a, 0xf8, 0xff, code, 0, 0, 0], insn)
}

/// Whether the operation has this code for 32 bits and for 64.
fn has_atomics(code: u8, op: AtomicOp) -> bool {
    is_atomic(0xc3, code, op, Width::W32) && is_atomic(0xdb, code, op, Width::W64)
}

#[test]
fn atomic_instructions(rt: HostRuntime) {
    for &(code, op) in &ATOMICS {
        assert!(rt; has_atomics(code, op), "{op:?}");
    }
}

/// Values of wide loads, their slots in storage order, and the destinations.
const WIDE: [(u64, u64, u64, Register); 3] = [
    (0, 0x1800_0000_0000_0000, 0, R0),
    (
        0x9122_3344_5566_7788,
        0x1801_0000_8877_6655,
        0x0000_0000_4433_2291,
        R1,
    ),
    (u64::MAX, 0x180a_0000_ffff_ffff, 0x0000_0000_ffff_ffff, R10),
];

/// Whether these slots, in storage order, encode the wide load, and it is encoded as them.
fn is_wide(value: u64, first: u64, second: u64, dst: Register) -> bool {
    let insn = Insn::LoadWide { dst, value };
    let first = first.swap_bytes();
    let second = Some(second.swap_bytes());
    spell(first, second, insn, 2) && encode(&insn) == (first, second)
}

#[test]
fn wide_loads(rt: HostRuntime) {
    for &(value, first, second, dst) in &WIDE {
        assert!(rt; is_wide(value, first, second, dst), "{value}");
    }
}

/// Slots that are no second half of a wide load, as these have an opcode, registers or an offset.
const HALVES: [u64; 5] = [0x01, 0x0100, 0x1000, 0x0001_0000, 0x8000_0000];

/// A second slot has no opcode, registers or offset, and it is required.
#[test]
fn halves_of_wide_loads(rt: HostRuntime) {
    assert!(rt; decode(0x18, None) == None);
    for &second in &HALVES {
        assert!(rt; decode(0x18, Some(second)) == None, "second slot {second}");
    }
}

/// Slots, in storage order, with a field that must be 0 or is not in the table, and opcodes that
/// are not assigned.
const INVALID: [u64; 32] = [
    0x0f21_0100_0000_0000,
    0x0f21_0000_0100_0000,
    0x0fb1_0000_0000_0000,
    0xb70b_0000_0500_0000,
    0xb710_0000_0500_0000,
    0x3f21_0200_0000_0000,
    0x8401_0000_0100_0000,
    0x8c01_0000_0000_0000,
    0xbc21_1800_0000_0000,
    0xbc21_2000_0000_0000,
    0xb701_0800_0000_0000,
    0xd401_0000_1800_0000,
    0xdf01_0000_1000_0000,
    0x0500_0100_0100_0000,
    0x0600_0100_0100_0000,
    0x0d00_0100_0000_0000,
    0x8520_0000_0100_0000,
    0x8600_0000_0100_0000,
    0x9501_0000_0000_0000,
    0x9500_0001_0000_0000,
    0x9600_0000_0000_0000,
    0xe501_0000_0000_0000,
    0x9921_0000_0000_0000,
    0x6121_0000_0100_0000,
    0x7221_0000_0100_0000,
    0xdb1a_f8ff_f000_0000,
    0xdb21_0000_0001_0000,
    0xcb21_0000_0000_0000,
    0xd321_0000_0000_0000,
    0x2000_0000_0000_0000,
    0x0000_0000_0000_0000,
    0x1810_0000_0000_0000,
];

/// Whether the slot, in storage order, encodes nothing, alone and before any other slot.
fn is_invalid(slot: u64) -> bool {
    let word = slot.swap_bytes();
    decode(word, None) == None
        && decode(word, Some(0)) == None
        && decode(word, Some(u64::MAX)) == None
}

#[test]
fn nothing_is_spelled(rt: HostRuntime) {
    for &slot in &INVALID {
        assert!(rt; is_invalid(slot), "at {slot}");
    }
}
