//! Runs with a limit of reads.

use super::helper_calls::{DOUBLES, SIZE_OF_TEXT};
use super::machine;
use bpf_machine::Status;
use std::alloc::Global;
use std::process::Abort;

/// The steps that were taken, what they read, the status, and whether the limit ended the run.
type End = (u64, u64, Status, bool);

/// The most steps and the limit, and the end. The third step makes a text of two bytes, and the fifth counts its code
/// points.
const SIZES: [((u64, u64), End); 8] = [
    ((9, 0), (2, 0, Status::Running, true)),
    ((9, 1), (2, 0, Status::Running, true)),
    ((9, 2), (4, 2, Status::Running, true)),
    ((9, 3), (4, 2, Status::Running, true)),
    ((9, 4), (8, 4, Status::Exited(1), false)),
    ((9, u64::MAX), (8, 4, Status::Exited(1), false)),
    ((2, 0), (2, 0, Status::Running, false)),
    ((3, 4), (3, 2, Status::Running, false)),
];

/// A text of one byte is made, which reads 1. Join number k is step 4 * k + 2, and reads 2^k.
const JOINS: [((u64, u64), End); 3] = [
    ((9999, 510), (33, 255, Status::Running, true)),
    ((9999, 511), (37, 511, Status::Running, true)),
    ((9999, 1000), (37, 511, Status::Running, true)),
];

fn end_of(
    alloc: Global,
    (slots, constants): (&[u64], &[u8]),
    (n, limit): (u64, u64),
) -> Option<End> {
    let mut machine = machine(alloc, slots, constants)?;
    let end = machine.run_within(n, limit).ok()?;
    Some((end.steps, end.reads, end.status, end.is_held))
}

/// Asserts the ends of the runs of a program with these constants.
fn assert_ends(
    rt: &impl Abort,
    alloc: Global,
    program: (&[u64], &[u8]),
    rows: &[((u64, u64), End)],
) {
    for (row, (most, end)) in rows.iter().enumerate() {
        assert!(rt; end_of(alloc, program, *most) == Some(*end), "row {row}");
    }
}

#[test]
fn runs_within_limits(rt: HostRuntime) {
    assert_ends(&rt, rt.alloc(), (SIZE_OF_TEXT, b"\xc3\xa9"), &SIZES);
    assert_ends(&rt, rt.alloc(), (DOUBLES, b"a"), &JOINS);
}
