//! Runs with a step limit, and writes to R10.

use super::{EXIT, end_of};
use bpf_machine::Status;
use guest_memory::Fault;

/// Slots, the step limit, then the steps made, the status and `pc`.
#[rattlefmt::skip]
const RUNS: [(&[u64], u64, (u64, Status), i64); 9] = [
    (&[0xb700_0000_0500_0000, EXIT], 9, (2, Status::Exited(5)), 1),
    (&[0xb700_0000_0500_0000, EXIT], 1, (1, Status::Running), 1),
    (&[0xb700_0000_0500_0000, EXIT], 0, (0, Status::Running), 0),
    (&[0xb700_0000_0500_0000, 0x0f00_0000_0000_0000, EXIT], 9, (3, Status::Exited(10)), 2),
    (&[0xb700_0000_ffff_ffff, EXIT], 9, (2, Status::Exited(u64::MAX)), 1),
    (&[0xb400_0000_ffff_ffff, EXIT], 9, (2, Status::Exited(0xffff_ffff)), 1),
    (&[0xb700_0000_0500_0000], 9, (2, Status::Fault(Fault::F1)), 1),
    (&[0x1800_0000_0000_0000], 9, (1, Status::Fault(Fault::F2)), 0),
    (&[0x0500_0100_0000_0000, 0x1800_0000_0500_0000, 0x0000_0000_0000_0000, EXIT], 9, (2, Status::Fault(Fault::F2)), 2),
];

#[test]
fn runs(rt: HostRuntime) {
    for (row, run) in RUNS.iter().enumerate() {
        let end = (run.2, ((run.2).1, run.3, 0x1_0000_0200, 0));
        assert!(rt; end_of(rt.alloc(), run.0, run.1) == Some(end), "row {row}");
    }
}

/// Every instruction that writes a register, except calls and exits, with R10 as its destination.
const INTO_R10: [u64; 10] = [
    0xb70a_0000_0000_0000,
    0x0c1a_0000_0000_0000,
    0x840a_0000_0000_0000,
    0x870a_0000_0000_0000,
    0xbf1a_0800_0000_0000,
    0xd40a_0000_1000_0000,
    0xd70a_0000_4000_0000,
    0x791a_0000_0000_0000,
    0x911a_0000_0000_0000,
    0x180a_0000_0500_0000,
];

#[test]
fn the_frame_pointer_is_read_only(rt: HostRuntime) {
    let stopped = Status::Fault(Fault::F9);
    let end = ((1, stopped), (stopped, 0, 0x1_0000_0200, 0));
    for &slot in &INTO_R10 {
        assert!(rt;
            end_of(rt.alloc(), &[slot, 0, EXIT], 9) == Some(end),
            "slot {slot:016x}"
        );
    }
}
