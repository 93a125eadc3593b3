//! Commands on an image, and sessions with it.

use super::doubles::OneFile;
use debugger::Counting;
use review_runner::{DocumentNames, Done, Order, Refusal, debug, perform};
use std::alloc::{AllocError, Global};
use std::test::Fail;

/// The step limit if no number is given.
const MOST: u64 = 10_000_000;

/// `r0 = 5`, `r0 += 2`, `exit`.
const THREE: &[u8] =
    b"CELBPF01\x03\0\0\0\0\0\0\0\xb7\0\0\0\x05\0\0\0\x07\0\0\0\x02\0\0\0\x95\0\0\0\0\0\0\0";

/// `r0 = 5`, `exit`.
const TWO: &[u8] = b"CELBPF01\x02\0\0\0\0\0\0\0\xb7\0\0\0\x05\0\0\0\x95\0\0\0\0\0\0\0";

/// The image `TWO` without its last byte.
const CUT: &[u8] = b"CELBPF01\x02\0\0\0\0\0\0\0\xb7\0\0\0\x05\0\0\0\x95\0\0\0\0\0\0";

/// `r0 = 5`, `exit` as an image of version 2.
const NEWER: &[u8] = b"CELBPF02\x02\0\0\0\0\0\0\0\xb7\0\0\0\x05\0\0\0\x95\0\0\0\0\0\0\0";

/// `r0 = 5`.
const ONE: &[u8] = b"CELBPF01\x01\0\0\0\0\0\0\0\xb7\0\0\0\x05\0\0\0";

/// The wide load without its second slot.
const CUT_LOAD: &[u8] = b"CELBPF01\x01\0\0\0\0\0\0\0\x18\0\0\0\0\0\0\0";

/// `r10 = 0`.
const FRAME: &[u8] = b"CELBPF01\x01\0\0\0\0\0\0\0\xb7\x0a\0\0\0\0\0\0";

/// The outcome of running this image for this many steps, if `a.img` has these bytes.
fn run(alloc: Global, name: &str, steps: u64, bytes: &[u8]) -> Result<Done, AllocError> {
    let image = String::from_str(alloc, name)?;
    perform(
        alloc,
        &Order::RunImage { image, steps },
        &mut OneFile { bytes },
    )
}

/// Whether standard output ends with these bytes, with this status and nothing on standard error.
fn ends_with(done: &Done, end: &[u8], status: u8) -> bool {
    done.status == status && done.err.is_empty() && done.out.ends_with(end)
}

/// The image, the step limit, the end of standard output and the status.
const RUNS: [(&[u8], u64, &[u8], u8); 7] = [
    (THREE, MOST, b"\nstep 3 pc 2 exited 0x0000000000000007\n", 0),
    (THREE, 0, b"\nstep 0 pc 0 running\n", 4),
    (TWO, MOST, b"\nstep 2 pc 1 exited 0x0000000000000005\n", 0),
    (NEWER, MOST, b"\nstep 2 pc 1 exited 0x0000000000000005\n", 0),
    (ONE, MOST, b"\nstep 2 pc 1 fault F1\n", 1),
    (CUT_LOAD, MOST, b"\nstep 1 pc 0 fault F2\n", 1),
    (FRAME, MOST, b"\nstep 1 pc 0 fault F9\n", 1),
];

#[test]
fn runs_images(rt: HostRuntime) -> Result<(), Fail> {
    for (row, &(bytes, steps, end, status)) in RUNS.iter().enumerate() {
        let done = run(rt.alloc(), "a.img", steps, bytes)?;
        assert!(rt; ends_with(&done, end, status), "row {row}");
    }
    Ok(())
}

/// Whether there is only this line of standard error, and this status.
fn is_refused(done: &Done, line: &[u8], status: u8) -> bool {
    done.status == status && done.out.is_empty() && done.err.as_slice() == line
}

/// The contents of `a.img`, the file that is given, and the line of standard error.
const REFUSED: [(&[u8], &str, &[u8]); 7] = [
    (CUT, "a.img", b"celbpf: L5\n"),
    (b"", "a.img", b"celbpf: L1\n"),
    (b"CELBPF03\x01\0\0\0\0\0\0\0", "a.img", b"celbpf: L2\n"),
    (b"CELBPF01\0\0\0\0\0\0\0\0", "a.img", b"celbpf: L3\n"),
    (b"CELBPF01\x01\0\0\0\x01\0\x10\0", "a.img", b"celbpf: L4\n"),
    (TWO, "b.img", b"celbpf: file\n"),
    (TWO, "", b"celbpf: file\n"),
];

#[test]
fn refuses_files(rt: HostRuntime) -> Result<(), Fail> {
    for (row, &(bytes, name, line)) in REFUSED.iter().enumerate() {
        let done = run(rt.alloc(), name, 9, bytes)?;
        assert!(rt; is_refused(&done, line, 3), "row {row}");
    }
    Ok(())
}

/// The text that a session writes.
const SAID: &[u8] = b"step 1 pc 1 running\nstep 0 pc 0 running\n? what\n";

/// The names of no documents.
const NO_DOCUMENTS: DocumentNames = DocumentNames {
    review: None,
    namespace: None,
    params: None,
};

/// Whether a session with the image of this name, with an output of this capacity, has
/// this result and writes a prefix of its text.
fn debugs(alloc: Global, name: &str, room: usize, end: Result<(), Refusal>) -> bool {
    let mut written = [0u8; 64];
    let (front, _) = written.split_at_mut(room.min(64));
    let ended = debug(
        alloc,
        name,
        &NO_DOCUMENTS,
        &mut OneFile { bytes: TWO },
        &mut Counting::new(b"s 1\nrs 1\nx\nq\ns 1\n".as_slice()),
        &mut Counting::new(&mut *front),
    );
    ended == end && SAID.starts_with(&written[..room.min(64)])
}

#[test]
fn debugs_images(rt: HostRuntime) -> Result<(), Fail> {
    assert!(rt; debugs(rt.alloc(), "a.img", SAID.len(), Ok(())));
    assert!(rt; debugs(rt.alloc(), "a.img", 25, Err(Refusal::Output)));
    assert!(rt; debugs(rt.alloc(), "b.img", 0, Err(Refusal::File)));
    Ok(())
}
