//! Calls of helpers in programs.

use super::{EXIT, machine, run_machine};
use bpf_machine::Status;
use guest_memory::Fault;
use insn_codec::Register;
use std::alloc::Global;
use value_store::ValueStore;

/// `r1` = a reference, and the kind of its value.
const KIND_OF_TRUE: &[u64] = &[0xb701_0000_0300_0000, 0x8500_0000_0100_0000, EXIT];

const KIND_OF_NOTHING: &[u64] = &[0xb701_0000_0900_0000, 0x8500_0000_0100_0000, EXIT];

const UNKNOWN: &[u64] = &[0xb701_0000_0300_0000, 0x8500_0000_1800_0000, EXIT];

/// The constants as a text, its number of code points, and that number as a word.
pub(super) const SIZE_OF_TEXT: &[u64] = &[
    0x1801_0000_0000_0000,
    0x0000_0000_0400_0000,
    0xb702_0000_0200_0000,
    0x8500_0000_0400_0000,
    0xbf01_0000_0000_0000,
    0x8500_0000_0800_0000,
    0xbf01_0000_0000_0000,
    0x8500_0000_0200_0000,
    EXIT,
];

/// An empty list, nested in a new one repeatedly.
const NESTS: &[u64] = &[
    0x8500_0000_1000_0000,
    0xbf06_0000_0000_0000,
    0x8500_0000_1000_0000,
    0xbf01_0000_0000_0000,
    0xbf62_0000_0000_0000,
    0x8500_0000_1100_0000,
    0xbf06_0000_0000_0000,
    0x0500_faff_0000_0000,
];

/// The constants as a text, joined with itself repeatedly.
pub(super) const DOUBLES: &[u64] = &[
    0x1801_0000_0000_0000,
    0x0000_0000_0400_0000,
    0xb702_0000_0100_0000,
    0x8500_0000_0400_0000,
    0xbf01_0000_0000_0000,
    0xbf02_0000_0000_0000,
    0x8500_0000_0b00_0000,
    0x0500_fcff_0000_0000,
];

/// The end of a run: the steps made, `pc` and the status.
type End = (u64, i64, Status);

/// Slots, constants, and the end of a run.
const CALLS: [(&[u64], &[u8], End); 6] = [
    (KIND_OF_TRUE, b"", (3, 2, Status::Exited(2))),
    (KIND_OF_NOTHING, b"", (2, 1, Status::Fault(Fault::F6))),
    (UNKNOWN, b"", (2, 1, Status::Fault(Fault::F5))),
    (SIZE_OF_TEXT, b"\xc3\xa9", (8, 8, Status::Exited(1))),
    (NESTS, b"", (1530, 5, Status::Fault(Fault::F8))),
    (DOUBLES, b"a", (94, 6, Status::Fault(Fault::F8))),
];

fn end_of(alloc: Global, slots: &[u64], constants: &[u8]) -> Option<End> {
    let mut machine = machine(alloc, slots, constants)?;
    let (steps, status) = machine.run(9999).ok()?;
    Some((steps, machine.pc(), status))
}

#[test]
fn calls_of_helpers(rt: HostRuntime) {
    for (row, (slots, constants, end)) in CALLS.iter().enumerate() {
        assert!(rt;
            end_of(rt.alloc(), slots, constants) == Some(*end),
            "row {row}"
        );
    }
}

/// The number of values, their charge and R1 after a run.
fn left_by(alloc: Global, slots: &[u64], constants: &[u8]) -> Option<[u64; 3]> {
    let machine = run_machine(machine(alloc, slots, constants)?, 9999)?;
    let values = machine.values();
    Some([
        values.len(),
        values.charge(),
        machine.register(Register::R1),
    ])
}

/// Slots, constants, and the number of values, their charge and R1 after a run.
const LEFT: [(&[u64], &[u8], [u64; 3]); 3] = [
    (KIND_OF_TRUE, b"", [9, 6, 0]),
    (KIND_OF_NOTHING, b"", [9, 5, 9]),
    (SIZE_OF_TEXT, b"\xc3\xa9", [11, 10, 0]),
];

#[test]
fn calls_leave_values(rt: HostRuntime) {
    for (row, (slots, constants, left)) in LEFT.iter().enumerate() {
        assert!(rt;
            left_by(rt.alloc(), slots, constants) == Some(*left),
            "row {row}"
        );
    }
}
