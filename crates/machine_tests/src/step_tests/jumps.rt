//! Jumps, branches and local calls.

use super::{EXIT, answer, end_of, machine, run_answer, run_machine, wide};
use Fault::{F1, F5, F7};
use bpf_machine::Status;
use guest_memory::Fault;
use insn_codec::Register;
use std::alloc::Global;

/// The status after `r1 = dst`, `r2 = operand`, the jump over the next slot, `r0 = 1` and `exit`.
fn status_over(alloc: Global, dst: u64, operand: u64, jump: u64) -> Option<Status> {
    let [dst_low, dst_high] = wide(1, dst);
    let [operand_low, operand_high] = wide(2, operand);
    let one = 0xb700_0000_0100_0000;
    let slots = [
        dst_low,
        dst_high,
        operand_low,
        operand_high,
        jump,
        one,
        EXIT,
    ];
    let (_, status) = answer(alloc, &slots, &[])?;
    Some(status)
}

/// The opcodes of each comparison (an immediate and a register for 64 bits, then for 32), and whether it
/// holds for -1 and 1, for 1 and 1, and for 2 and 1.
const BRANCHES: [([u8; 4], [bool; 3]); 11] = [
    ([0x15, 0x1d, 0x16, 0x1e], [false, true, false]),
    ([0x25, 0x2d, 0x26, 0x2e], [true, false, true]),
    ([0x35, 0x3d, 0x36, 0x3e], [true, true, true]),
    ([0x45, 0x4d, 0x46, 0x4e], [true, true, false]),
    ([0x55, 0x5d, 0x56, 0x5e], [true, false, true]),
    ([0x65, 0x6d, 0x66, 0x6e], [false, false, true]),
    ([0x75, 0x7d, 0x76, 0x7e], [false, true, true]),
    ([0xa5, 0xad, 0xa6, 0xae], [false, false, false]),
    ([0xb5, 0xbd, 0xb6, 0xbe], [false, true, false]),
    ([0xc5, 0xcd, 0xc6, 0xce], [true, false, false]),
    ([0xd5, 0xdd, 0xd6, 0xde], [true, true, false]),
];

/// A word of 64 bits, and a word whose low half matters, to be compared with 1.
type Words = (u64, u64);

const MINUS_ONE: Words = (u64::MAX, 0x7_ffff_ffff);

const ONE: Words = (1, 0x7_0000_0001);

const TWO: Words = (2, 0x7_0000_0002);

/// Whether the jump, taken or not for these words, leads to the exit.
fn is_taken(alloc: Global, dst: u64, operand: u64, jump: [u8; 8]) -> Option<bool> {
    let status = status_over(alloc, dst, operand, u64::from_be_bytes(jump))?;
    Some(status == Status::Exited(0))
}

/// Whether a comparison's four jumps are all taken for these words, compared with 1, or none is.
fn branches_if(alloc: Global, opcodes: [u8; 4], (whole, half): Words, holds: bool) -> bool {
    let [imm_64, reg_64, imm_32, reg_32] = opcodes;
    let taken = [
        is_taken(alloc, whole, 0, [imm_64, 0x01, 1, 0, 1, 0, 0, 0]),
        is_taken(alloc, whole, 1, [reg_64, 0x21, 1, 0, 0, 0, 0, 0]),
        is_taken(alloc, half, 0, [imm_32, 0x01, 1, 0, 1, 0, 0, 0]),
        is_taken(alloc, half, 0x9_0000_0001, [reg_32, 0x21, 1, 0, 0, 0, 0, 0]),
    ];
    taken == [Some(holds); 4]
}

/// Whether a comparison's jumps are taken exactly if it holds.
fn branches_where(alloc: Global, opcodes: [u8; 4], holds: [bool; 3]) -> bool {
    let [for_minus_one, for_one, for_two] = holds;
    branches_if(alloc, opcodes, MINUS_ONE, for_minus_one)
        && branches_if(alloc, opcodes, ONE, for_one)
        && branches_if(alloc, opcodes, TWO, for_two)
}

#[test]
fn branches(rt: HostRuntime) {
    for &(opcodes, holds) in &BRANCHES {
        assert!(rt; branches_where(rt.alloc(), opcodes, holds), "{opcodes:?}");
    }
}

/// Words, opcodes of `==` and `>` for 64 bits and for 32 with the sign-extended immediate -2, and whether they jump.
const NEGATIVE: [(u64, u8, bool); 5] = [
    (0xffff_ffff_ffff_fffe, 0x15, true),
    (0x0000_0000_ffff_fffe, 0x15, false),
    (0x0000_0001_ffff_fffe, 0x16, true),
    (0x0000_0001_0000_0000, 0x25, false),
    (0x0000_0001_0000_0000, 0x65, true),
];

/// Whether the jump with the immediate -2 is taken for this word.
fn jumps_at(alloc: Global, dst: u64, opcode: u8) -> Option<bool> {
    is_taken(alloc, dst, 0, [opcode, 1, 1, 0, 0xfe, 0xff, 0xff, 0xff])
}

#[test]
fn branches_on_a_negative_immediate(rt: HostRuntime) {
    for &(dst, opcode, taken) in &NEGATIVE {
        assert!(rt;
            jumps_at(rt.alloc(), dst, opcode) == Some(taken),
            "{dst:x} {opcode:x}"
        );
    }
}

/// Slots, the steps made and the status, then `pc` and the number of open records.
#[rattlefmt::skip]
const JUMPS: [(&[u64], (u64, Status), (i64, usize)); 9] = [
    (&[0x0500_0100_0000_0000, 0xb700_0000_0500_0000, EXIT], (2, Status::Exited(0)), (2, 0)),
    (&[0x0600_0000_0100_0000, 0xb700_0000_0500_0000, EXIT], (2, Status::Exited(0)), (2, 0)),
    (&[0x0500_ffff_0000_0000], (9, Status::Running), (0, 0)),
    (&[0x0500_0500_0000_0000], (2, Status::Fault(F1)), (6, 0)),
    (&[0x0500_fdff_0000_0000], (2, Status::Fault(F1)), (-2, 0)),
    (&[0x0600_0000_ffff_ff7f], (2, Status::Fault(F1)), (0x8000_0000, 0)),
    (&[0x8500_0000_1800_0000, EXIT], (1, Status::Fault(F5)), (0, 0)),
    (&[0x8510_0000_ffff_ffff], (8, Status::Fault(F7)), (0, 7)),
    (&[0x8510_0000_0000_0080], (2, Status::Fault(F1)), (-0x7fff_ffff, 1)),
];

/// Whether a run has this result, and leaves this `pc` and number of open records.
fn ends_so(
    alloc: Global,
    slots: &[u64],
    wanted: (u64, Status),
    (place, depth): (i64, usize),
) -> bool {
    match end_of(alloc, slots, 9) {
        Some((answer, (_, pc, _, records))) => {
            answer == wanted && pc == place && records == depth
        }
        None => false,
    }
}

#[test]
fn jumps_and_calls(rt: HostRuntime) {
    for (row, &(slots, wanted, left)) in JUMPS.iter().enumerate() {
        assert!(rt; ends_so(rt.alloc(), slots, wanted, left), "row {row}");
    }
}

/// The callee has a frame 512 bytes higher and its own R6; the caller's are restored at its exit.
const CALL: [u64; 7] = [
    0xb706_0000_0700_0000, // r6 = 7
    0x8510_0000_0100_0000, // call the slot after the next one
    EXIT,
    0xb706_0000_0900_0000, // r6 = 9
    0x7b6a_f8ff_0000_0000, // the word at r10 - 8 becomes r6
    0x79a0_f8ff_0000_0000, // r0 = the word at r10 - 8
    EXIT,
];

/// `pc`, R6, R10 and the number of open records after this many steps.
fn frame_after(alloc: Global, steps: u64) -> Option<(i64, u64, u64, usize)> {
    let machine = run_machine(machine(alloc, &CALL, &[])?, steps)?;
    let r6 = machine.register(Register::R6);
    let r10 = machine.register(Register::R10);
    Some((machine.pc(), r6, r10, machine.records().len()))
}

/// Steps, and `pc`, R6, R10 and the number of open records after them.
const FRAMES: [(u64, (i64, u64, u64, usize)); 3] = [
    (2, (3, 7, 0x1_0000_0400, 1)),
    (4, (5, 9, 0x1_0000_0400, 1)),
    (9, (2, 7, 0x1_0000_0200, 0)),
];

#[test]
fn a_call_keeps_the_callers_registers(rt: HostRuntime) {
    for &(steps, frame) in &FRAMES {
        assert!(rt;
            frame_after(rt.alloc(), steps) == Some(frame),
            "after {steps}"
        );
    }
}

/// The result of a run of at most nine steps after a run of two.
fn answer_after_two(alloc: Global) -> Option<(u64, Status)> {
    run_answer(run_machine(machine(alloc, &CALL, &[])?, 2)?, 9)
}

#[test]
fn a_run_goes_on(rt: HostRuntime) {
    assert!(rt; answer_after_two(rt.alloc()) == Some((5, Status::Exited(9))));
}
