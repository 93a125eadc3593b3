//! Lines that were written by hand.
use insn_codec::{
    AluOp, AtomicOp, Comparison, Insn, Operand, Register, SignedSize, Size, Statement, Width,
};
use std::alloc::Global;

/// Statements, the number of their slots, and their lines.
#[rattlefmt::skip]
const LINES: [(Statement, u64, &str); 10] = [
    (Statement::Insn(Insn::Alu { op: AluOp::Mov, width: Width::W64, dst: Register::R0, operand: Operand::Imm(-2147483648) }), 1, "mov64 r0, -2147483648"),
    (
        Statement::Insn(Insn::Branch {
            comparison: Comparison::Slt,
            width: Width::W32,
            dst: Register::R1,
            operand: Operand::Reg(Register::R10),
            offset: 0,
        }),
        1,
        "jslt32 r1, r10, +0",
    ),
    (Statement::Insn(Insn::JumpLong { offset: -1 }), 1, "ja32 -1"),
    (Statement::Insn(Insn::LoadSigned { size: SignedSize::H, dst: Register::R3, src: Register::R4, offset: -32768 }), 1, "ldxsh r3, [r4-32768]"),
    (Statement::Insn(Insn::StoreImm { size: Size::Dw, dst: Register::R5, offset: 32767, imm: 0 }), 1, "stdw [r5+32767], 0"),
    (
        Statement::Insn(Insn::Atomic {
            op: AtomicOp::FetchAdd,
            width: Width::W64,
            dst: Register::R10,
            offset: -8,
            src: Register::R1,
        }),
        1,
        "atomic_fetch_add64 [r10-8], r1",
    ),
    (
        Statement::Insn(Insn::Atomic {
            op: AtomicOp::CompareExchange,
            width: Width::W32,
            dst: Register::R2,
            offset: 0,
            src: Register::R3,
        }),
        1,
        "atomic_cmpxchg32 [r2+0], r3",
    ),
    (Statement::Insn(Insn::LoadWide { dst: Register::R1, value: 0x9122_3344_5566_77af }), 2, "lddw r1, 0x91223344556677af"),
    (Statement::Slot(0), 1, ".slot 0x0000000000000000"),
    (Statement::Slot(u64::MAX), 1, ".slot 0xffffffffffffffff"),
];

/// Each atomic operation with its mnemonic.
const ATOMIC_WORDS: [(AtomicOp, &str); 10] = [
    (AtomicOp::Add, "atomic_add"),
    (AtomicOp::Or, "atomic_or"),
    (AtomicOp::And, "atomic_and"),
    (AtomicOp::Xor, "atomic_xor"),
    (AtomicOp::FetchAdd, "atomic_fetch_add"),
    (AtomicOp::FetchOr, "atomic_fetch_or"),
    (AtomicOp::FetchAnd, "atomic_fetch_and"),
    (AtomicOp::FetchXor, "atomic_fetch_xor"),
    (AtomicOp::Exchange, "atomic_xchg"),
    (AtomicOp::CompareExchange, "atomic_cmpxchg"),
];

/// The atomic instruction at `[r1+0]` with R2.
fn atomic(op: AtomicOp, width: Width) -> Insn {
    Insn::Atomic {
        op,
        width,
        dst: Register::R1,
        offset: 0,
        src: Register::R2,
    }
}

/// Whether the statement has this line.
fn has_line(alloc: Global, statement: Statement, line: &str) -> bool {
    statement.in_range();
    match statement.to_string(alloc) {
        Ok(text) => text.as_str() == line,
        Err(_) => false,
    }
}

/// Whether the line of the atomic instruction begins with this mnemonic and these bits.
fn is_line(alloc: Global, op: AtomicOp, width: Width, word: &str, bits: u8) -> bool {
    match format!(in alloc; "{word}{bits} [r1+0], r2") {
        Ok(line) => has_line(alloc, Statement::Insn(atomic(op, width)), line.as_str()),
        Err(_) => false,
    }
}

/// Whether the lines of the atomic instruction for 32 bits and for 64 begin with this mnemonic.
fn has_lines(alloc: Global, op: AtomicOp, word: &str) -> bool {
    is_line(alloc, op, Width::W32, word, 32) && is_line(alloc, op, Width::W64, word, 64)
}

#[test]
fn each_atomic_operation_has_its_lines(rt: HostRuntime) {
    for &(op, word) in &ATOMIC_WORDS {
        assert!(rt; has_lines(rt.alloc(), op, word), "{word}");
    }
}

#[test]
fn each_statement_has_its_line(rt: HostRuntime) {
    for (statement, slots, line) in &LINES {
        let has_slots = statement.slots() == *slots;
        assert!(rt;
            has_slots && has_line(rt.alloc(), *statement, line),
            "{line}"
        );
    }
}
