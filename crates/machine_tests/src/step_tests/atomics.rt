//! Atomic instructions on words, worked out by hand (RFC 9669, section 5.3).
use super::{EXIT, Plain, answer, answers, machine, run_machine, wide};
use bpf_machine::Status;
use guest_memory::{Fault, Regions, Size};
use insn_codec::Register;
use std::alloc::Global;

/// The word in memory, at the base of scratch.
const OLD: u64 = 0xf0f0_f0f0_8000_0003;

/// The word of R2, the source.
const SRC: u64 = 0x0ff0_0000_8000_00fe;

/// The low half of the word in memory.
const LOW: u64 = 0x8000_0003;

/// Instructions on the word at R1, R0 before each, and R0, R2 and the word in memory after it.
#[rattlefmt::skip]
const OPERATIONS: [(u64, u64, [u64; 3]); 24] = [
    (0xdb21_0000_0000_0000, 9, [9, SRC, 0x00e0_f0f1_0000_0101]),
    (0xdb21_0000_4000_0000, 9, [9, SRC, 0xfff0_f0f0_8000_00ff]),
    (0xdb21_0000_5000_0000, 9, [9, SRC, 0x00f0_0000_8000_0002]),
    (0xdb21_0000_a000_0000, 9, [9, SRC, 0xff00_f0f0_0000_00fd]),
    (0xdb21_0000_0100_0000, 9, [9, OLD, 0x00e0_f0f1_0000_0101]),
    (0xdb21_0000_4100_0000, 9, [9, OLD, 0xfff0_f0f0_8000_00ff]),
    (0xdb21_0000_5100_0000, 9, [9, OLD, 0x00f0_0000_8000_0002]),
    (0xdb21_0000_a100_0000, 9, [9, OLD, 0xff00_f0f0_0000_00fd]),
    (0xdb21_0000_e100_0000, 9, [9, OLD, SRC]),
    (0xdb21_0000_f100_0000, OLD, [OLD, SRC, SRC]),
    (0xdb21_0000_f100_0000, LOW, [OLD, SRC, OLD]),
    (0xc321_0000_0000_0000, 9, [9, SRC, 0xf0f0_f0f0_0000_0101]),
    (0xc321_0000_4000_0000, 9, [9, SRC, 0xf0f0_f0f0_8000_00ff]),
    (0xc321_0000_5000_0000, 9, [9, SRC, 0xf0f0_f0f0_8000_0002]),
    (0xc321_0000_a000_0000, 9, [9, SRC, 0xf0f0_f0f0_0000_00fd]),
    (0xc321_0000_0100_0000, 9, [9, LOW, 0xf0f0_f0f0_0000_0101]),
    (0xc321_0000_4100_0000, 9, [9, LOW, 0xf0f0_f0f0_8000_00ff]),
    (0xc321_0000_5100_0000, 9, [9, LOW, 0xf0f0_f0f0_8000_0002]),
    (0xc321_0000_a100_0000, 9, [9, LOW, 0xf0f0_f0f0_0000_00fd]),
    (0xc321_0000_e100_0000, 9, [9, LOW, 0xf0f0_f0f0_8000_00fe]),
    (0xc321_0000_f100_0000, 0xffff_ffff_8000_0003, [LOW, SRC, 0xf0f0_f0f0_8000_00fe]),
    (0xc321_0000_f100_0000, 0x8000_0004, [LOW, SRC, OLD]),
    // The address is R1's before R1 receives the old word.
    (0xdb11_0000_e100_0000, 9, [9, SRC, 0x2_0000_0000]),
    // No alignment is required: two bytes further on, the four bytes are 00 80 f0 f0.
    (0xc321_0200_e100_0000, 9, [9, 0xf0f0_8000, 0xf0f0_8000_00fe_0003]),
];

/// The words of R0 and R2 and the word in memory.
fn words(machine: &Plain) -> [Option<u64>; 3] {
    [
        Some(machine.register(Register::R0)),
        Some(machine.register(Register::R2)),
        machine.memory().read(0x2_0000_0000, Size::Dw).ok(),
    ]
}

/// These words after an instruction on the word at R1.
fn after(alloc: Global, slot: u64, r0: u64) -> Option<[Option<u64>; 3]> {
    let [base, high_base] = wide(1, 0x2_0000_0000);
    let [old, high_old] = wide(2, OLD);
    let [src, high_src] = wide(2, SRC);
    let [first, high_first] = wide(0, r0);
    let store = 0x7b21_0000_0000_0000;
    let slots = [
        base, high_base, old, high_old, store, src, high_src, first, high_first, slot,
    ];
    let machine = run_machine(machine(alloc, &slots, &[])?, 6)?;
    Some(words(&machine))
}

/// Whether the instruction leaves these words.
fn leaves(alloc: Global, slot: u64, r0: u64, expected: [u64; 3]) -> bool {
    let [first, second, word] = expected;
    after(alloc, slot, r0) == Some([Some(first), Some(second), Some(word)])
}

#[test]
fn operations(rt: HostRuntime) {
    for &(slot, r0, expected) in &OPERATIONS {
        assert!(rt;
            leaves(rt.alloc(), slot, r0, expected),
            "slot {slot:016x}, r0 {r0:x}"
        );
    }
}

/// Programs of five steps and the word with which each exits: R0 is 0x1_0000_0007 and R1 is 5, then [r10-8] becomes
/// 7, an instruction operates on it, and the word of interest is moved to R0.
const PROGRAMS: [(u64, u64, u64); 4] = [
    // fetch_add64 of R1: 12 in memory, and 7 in R1
    (0xdb1a_f8ff_0100_0000, 0x79a0_f8ff_0000_0000, 12),
    (0xdb1a_f8ff_0100_0000, 0xbf10_0000_0000_0000, 7),
    // cmpxchg32 if the low half of R0 equals the word: 5 in memory, and 7 in R0
    (0xc31a_f8ff_f100_0000, 0x79a0_f8ff_0000_0000, 5),
    (0xc31a_f8ff_f100_0000, 0xbf00_0000_0000_0000, 7),
];

fn exits(alloc: Global, slot: u64, last: u64, r0: u64) -> bool {
    let [first, high_first] = wide(0, 0x1_0000_0007);
    let slots = [
        first,
        high_first,
        0xb701_0000_0500_0000,
        0x7a0a_f8ff_0700_0000,
        slot,
        last,
        EXIT,
    ];
    answers(alloc, &slots, (6, Status::Exited(r0)))
}

#[test]
fn programs(rt: HostRuntime) {
    for &(slot, last, r0) in &PROGRAMS {
        assert!(rt;
            exits(rt.alloc(), slot, last, r0),
            "slots {slot:016x} {last:016x}"
        );
    }
}

/// R1, an instruction, and the fault that stops it, with eight constants.
const FAULTS: [(u64, u64, Fault); 11] = [
    (0, 0xdba1_0000_e100_0000, Fault::F9),
    (0, 0xc3a1_0000_0100_0000, Fault::F9),
    // R10 is only read, and no register but R0 is written.
    (0, 0xdba1_0000_f100_0000, Fault::F3),
    (0, 0xc3a1_0000_0000_0000, Fault::F3),
    // If the comparison fails, the faults are still those of a store.
    (0x4_0000_0000, 0xc321_0000_f100_0000, Fault::F4),
    (0x4_0000_0000, 0xdb21_0000_e100_0000, Fault::F4),
    (0x4_0000_0001, 0xdb21_0000_f100_0000, Fault::F3),
    (0x3_0000_07fd, 0xc321_0000_f100_0000, Fault::F3),
    (0x2_0000_0ff9, 0xdb21_0000_4000_0000, Fault::F3),
    (u64::MAX, 0xdb21_0000_0000_0000, Fault::F3),
    (0x2_0000_0000, 0xdb21_0000_f000_0000, Fault::F2),
];

fn stops(alloc: Global, r1: u64, slot: u64, fault: Fault) -> bool {
    let [base, high_base] = wide(1, r1);
    let slots = [base, high_base, slot];
    answer(alloc, &slots, b"constant") == Some((2, Status::Fault(fault)))
}

#[test]
fn faults(rt: HostRuntime) {
    for &(r1, slot, fault) in &FAULTS {
        assert!(rt;
            stops(rt.alloc(), r1, slot, fault),
            "slot {slot:016x}, r1 {r1:x}"
        );
    }
}
