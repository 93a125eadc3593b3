//! Copies of a machine.

use super::{EXIT, Plain, machine, run_machine};
use bpf_machine::Status;
use guest_memory::{Regions, Size};
use std::alloc::Global;

/// `r1 = r10`; the byte at `r1` becomes 7; `exit`.
const STORES_SEVEN: [u64; 3] = [0xbfa1_0000_0000_0000, 0x7201_0000_0700_0000, EXIT];

/// The machine after one more step.
fn stepped(mut machine: Plain) -> Option<Plain> {
    machine.step().ok()?;
    Some(machine)
}

/// The result of one more step.
fn step_answer(mut machine: Plain) -> Option<Status> {
    machine.step().ok()
}

/// A copy of the machine.
fn copied(machine: &Plain) -> Option<Plain> {
    machine.copy().ok()
}

/// The machine that stores seven, after its first step.
fn first(alloc: Global) -> Option<Plain> {
    stepped(machine(alloc, &STORES_SEVEN, &[1, 2])?)
}

/// The byte that it stores.
fn byte(machine: &Plain) -> Option<u64> {
    machine.memory().read(0x1_0000_0200, Size::B).ok()
}

/// `pc`, the byte that is stored, both constants and the number of bytes of the code.
fn parts(machine: &Plain) -> (i64, Option<u64>, Option<u64>, usize) {
    let constants = machine.memory().read(0x4_0000_0000, Size::H).ok();
    let length = machine.image().code().len();
    (machine.pc(), byte(machine), constants, length)
}

/// These parts of a copy of that machine.
fn parts_of_copy(alloc: Global) -> Option<(i64, Option<u64>, Option<u64>, usize)> {
    let copy = copied(&first(alloc)?)?;
    Some(parts(&copy))
}

#[test]
fn a_copy_is_equal(rt: HostRuntime) {
    assert!(rt; parts_of_copy(rt.alloc()) == Some((1, Some(0), Some(0x0201), 24)));
}

/// The status that the step after this many others returns.
fn status_after(alloc: Global, steps: u64) -> Option<Status> {
    step_answer(run_machine(machine(alloc, &STORES_SEVEN, &[])?, steps)?)
}

/// Steps, and the status that the step after them returns.
const STATUSES: [(u64, Status); 4] = [
    (0, Status::Running),
    (1, Status::Running),
    (2, Status::Exited(0)),
    (3, Status::Exited(0)),
];

#[test]
fn a_stopped_machine_stays(rt: HostRuntime) {
    for &(steps, status) in &STATUSES {
        assert!(rt;
            status_after(rt.alloc(), steps) == Some(status),
            "after {steps}"
        );
    }
}
