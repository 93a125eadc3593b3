//! Sessions whose reads and writes fail.

ghost use Rattle.std.specs.Prelude.{◌<◌};

use super::{CODE, ended, says};
use crate::tests::assert_rows;
use crate::tests::doubles::{Feed, Tape};
use debugger::{SessionError, Sink, Source};
use std::alloc::Global;

/// A short script, and its text.
const SCRIPT: &[u8] = b"s 1\nx\n";

const SAID: &[u8] = b"step 1 pc 1 running\n? what\n";

/// Whether a session with this input whose read with this number fails writes this.
fn stops_at_read(alloc: Global, input: &'static [u8], fails_at: u64, said: &[u8]) -> bool {
    let mut feed = Feed::new(input, 1, fails_at);
    let mut tape = Tape::new(Vec::new(alloc), 1000, 0, 0);
    let ended = ended(alloc, CODE, &mut feed, &mut tape);
    ended == Some(Err(SessionError::ReadFailed)) && feed.failures() == 1 && tape.bytes() == said
}

/// The reads that fail, and the text that is written.
const FAILED_READS: [(u64, &[u8]); 7] = [
    (1, b""),
    (2, b""),
    (3, b""),
    (4, b""),
    (5, b"step 1 pc 1 running\n"),
    (6, b"step 1 pc 1 running\n"),
    (7, SAID),
];

fn right_reads(alloc: Global) -> usize {
    for (place, &(fails_at, said)) in FAILED_READS.iter().enumerate() {
        if !stops_at_read(alloc, SCRIPT, fails_at, said) {
            return place;
        }
    }
    7
}

#[test]
fn stops_where_a_read_fails(rt: HostRuntime) {
    assert_rows(&rt, right_reads(rt.alloc()), 7);
}

/// A session with a breakpoint, and its text.
const BREAKING: &[u8] = b"b 1\nc 10\nrs 1\nrs 1\nrc\nbogus\n";

const BROKEN: &[u8] =
    b"break 1\nstep 1 pc 1 running\nstep 0 pc 0 running\n? range\nstep 0 pc 0 running\n? what\n";

/// For each line of that session: the first read of a byte that does not end it and the first that ends the next one,
/// and the text before it. The last read finds the end.
#[rattlefmt::skip]
const BROKEN_READS: [(u64, u64, &[u8]); 7] = [
    (1, 5, b""),
    (5, 10, b"break 1\n"),
    (10, 15, b"break 1\nstep 1 pc 1 running\n"),
    (15, 20, b"break 1\nstep 1 pc 1 running\nstep 0 pc 0 running\n"),
    (20, 23, b"break 1\nstep 1 pc 1 running\nstep 0 pc 0 running\n? range\n"),
    (23, 29, b"break 1\nstep 1 pc 1 running\nstep 0 pc 0 running\n? range\nstep 0 pc 0 running\n"),
    (29, 30, BROKEN),
];

/// Whether the session with a breakpoint writes this if one of these reads fails.
fn breaks_at_reads(alloc: Global, from: u64, to: u64, said: &[u8]) -> bool {
    for fails_at in from..to {
        if !stops_at_read(alloc, BREAKING, fails_at, said) {
            return false;
        }
    }
    true
}

fn right_broken_reads(alloc: Global) -> usize {
    for (place, &(from, to, said)) in BROKEN_READS.iter().enumerate() {
        if !breaks_at_reads(alloc, from, to, said) {
            return place;
        }
    }
    7
}

#[test]
fn breaks_until_a_read_fails(rt: HostRuntime) {
    assert_rows(&rt, right_broken_reads(rt.alloc()), 7);
}

/// Whether a session with this input writes this if its write with one of these numbers fails, or takes no byte.
fn stops_at_write(
    alloc: Global,
    input: &'static [u8],
    fails_at: u64,
    stalls_at: u64,
    said: &[u8],
) -> bool {
    let mut feed = Feed::new(input, 1, 0);
    let mut tape = Tape::new(Vec::new(alloc), 1, fails_at, stalls_at);
    let ended = ended(alloc, CODE, &mut feed, &mut tape);
    ended == Some(Err(SessionError::WriteFailed)) && tape.failures() == 1 && tape.bytes() == said
}

/// Whether a session with this input, with one byte per write, writes all of these bytes before one whose write fails,
/// and before one that is not taken.
fn stops_after(alloc: Global, input: &'static [u8], said: &[u8]) -> bool {
    let number = (said.len() as u64).wrapping_add(1);
    stops_at_write(alloc, input, number, 0, said) && stops_at_write(alloc, input, 0, number, said)
}

/// The number of ends of its text, from the start on, at which a session with this input stops so.
fn right_ends(alloc: Global, input: &'static [u8], said: &[u8]) -> usize {
    for end in 0..said.len() {
        if !stops_after(alloc, input, &said[..end]) {
            return end;
        }
    }
    said.len()
}

#[test]
fn stops_where_a_write_fails(rt: HostRuntime) {
    assert_rows(&rt, right_ends(rt.alloc(), SCRIPT, SAID), 27);
}

#[test]
fn breaks_until_a_write_fails(rt: HostRuntime) {
    assert_rows(&rt, right_ends(rt.alloc(), BREAKING, BROKEN), 83);
    assert!(rt; says(rt.alloc(), CODE, BREAKING, BROKEN, 1));
}
