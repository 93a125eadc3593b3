//! Sessions with programs of a few slots.
ghost use Rattle.std.specs.Prelude.{◌<◌};

use super::doubles::{Feed, Tape};
use super::talking::{Ended, talk};
use super::{assert_rows, null_table};
use debugger::{SessionError, Source};
use loader::Image;
use std::alloc::{AllocError, Global};

mod failures;

/// `r0 = 5` and `exit`.
const CODE: &[u8] = b"\xb7\0\0\0\x05\0\0\0\x95\0\0\0\0\0\0\0";

/// `r0 = 5` alone.
const OPEN_ENDED: &[u8] = b"\xb7\0\0\0\x05\0\0\0";

/// A jump to the second slot of a wide load, the wide load, and `exit`.
const INSIDE_WIDE: &[u8] =
    b"\x05\0\x01\0\0\0\0\0\x18\0\0\0\x05\0\0\0\0\0\0\0\0\0\0\0\x95\0\0\0\0\0\0\0";

/// `exit`, nine times.
const NINE_EXITS: &[u8] =
    b"\x95\0\0\0\0\0\0\0\x95\0\0\0\0\0\0\0\x95\0\0\0\0\0\0\0\x95\0\0\0\0\0\0\0\x95\0\0\0\0\0\0\0\x95\0\0\0\0\0\0\0\x95\0\0\0\0\0\0\0\x95\0\0\0\0\0\0\0\x95\0\0\0\0\0\0\0";

/// A function that calls itself.
const CALLS_ITSELF: &[u8] = b"\x85\x10\0\0\xff\xff\xff\xff";

/// Counts in memory: `ldxdw r1, [r10-8]`, `add64 r1, 1`, `stxdw [r10-8], r1` and `ja -4`.
const COUNTS: &[u8] =
    b"\x79\xa1\xf8\xff\0\0\0\0\x07\x01\0\0\x01\0\0\0\x7b\x1a\xf8\xff\0\0\0\0\x05\0\xfc\xff\0\0\0\0";

/// Programs with inputs that set breakpoints, list and show, and the text that is written.
#[rattlefmt::skip]
const COMMANDS: [(&[u8], &[u8], &[u8]); 15] = [
    (
        COUNTS,
        b"s 1000000\nm 0x1000001f8 8\nrs 999997\nm 0x1000001f8 8\ng 1000000\n",
        b"step 1000000 pc 0 running\n0x00000001000001f8 90 d0 03 00 00 00 00 00\nstep 3 pc 3 running\n0x00000001000001f8 01 00 00 00 00 00 00 00\nstep 1000000 pc 0 running\n",
    ),
    (
        CODE,
        b"b 1\nd 1\nc 10\nr\n",
        b"break 1\nclear 1\nstep 2 pc 1 exited 0x0000000000000005\nr0 0x0000000000000005\nr1 0x0000000000000000\nr2 0x0000000000000000\nr3 0x0000000000000000\nr4 0x0000000000000000\nr5 0x0000000000000000\nr6 0x0000000000000000\nr7 0x0000000000000000\nr8 0x0000000000000000\nr9 0x0000000000000000\nr10 0x0000000100000200\n",
    ),
    (CODE, b"b 1\nc 10\nrs 1\nrs 1\nrc\nbogus\n", b"break 1\nstep 1 pc 1 running\nstep 0 pc 0 running\n? range\nstep 0 pc 0 running\n? what\n"),
    (CODE, b"b 1\nb 1\nd 1\nc 1\nd 1\nc 1\n", b"break 1\nbreak 1\nclear 1\nstep 1 pc 1 running\nclear 1\nstep 2 pc 1 exited 0x0000000000000005\n"),
    (CODE, b"g 0\ng 1000000000\nc 1\nrc\n", b"step 0 pc 0 running\nstep 1000000000 pc 1 exited 0x0000000000000005\n? range\nstep 0 pc 0 running\n"),
    (
        CODE,
        b"b 65535\nb 65536\nd 65536\ng 1000000001\nc 0\nc 1000001\nrc x\nb 01\nl 1\nb\n",
        b"break 65535\n? range\n? range\n? range\n? range\n? range\n? what\n? what\n? what\n? what\n",
    ),
    (CODE, b"l\ns 1\nl\n", b"0 mov64 r0, 5\n1 exit\nstep 1 pc 1 running\n1 exit\n"),
    (INSIDE_WIDE, b"l\ns 2\nl\n", b"0 ja +1\n1 lddw r0, 0x0000000000000005\n3 exit\nstep 2 pc 2 fault F2\n2 .slot 0x0000000000000000\n3 exit\n"),
    (NINE_EXITS, b"l\n", b"0 exit\n1 exit\n2 exit\n3 exit\n4 exit\n5 exit\n6 exit\n7 exit\n"),
    (OPEN_ENDED, b"s 2\nl\n", b"step 2 pc 1 fault F1\n1 outside\n"),
    (
        CODE,
        b"s 5\nv 3\nv 0\nv 4\nv 9\nm 0x300000000 2\n",
        b"step 5 pc 1 exited 0x0000000000000005\nvalue 3 true\nvalue 0 error\nvalue 4 null\n? range\n0x0000000300000000 00 00\n",
    ),
    (
        CALLS_ITSELF,
        b"s 8\nf\n",
        b"step 8 pc 0 fault F7\ndepth 7\nreturn 1 r6 0x0000000000000000 r7 0x0000000000000000 r8 0x0000000000000000 r9 0x0000000000000000\nreturn 1 r6 0x0000000000000000 r7 0x0000000000000000 r8 0x0000000000000000 r9 0x0000000000000000\nreturn 1 r6 0x0000000000000000 r7 0x0000000000000000 r8 0x0000000000000000 r9 0x0000000000000000\nreturn 1 r6 0x0000000000000000 r7 0x0000000000000000 r8 0x0000000000000000 r9 0x0000000000000000\nreturn 1 r6 0x0000000000000000 r7 0x0000000000000000 r8 0x0000000000000000 r9 0x0000000000000000\nreturn 1 r6 0x0000000000000000 r7 0x0000000000000000 r8 0x0000000000000000 r9 0x0000000000000000\nreturn 1 r6 0x0000000000000000 r7 0x0000000000000000 r8 0x0000000000000000 r9 0x0000000000000000\n",
    ),
    (
        STORES,
        b"s 9\nm 0x1fffffff0 17\nm 0x200000000 17\nm 0x200000ff8 8\nm 0x200000ff8 9\n",
        b"step 9 pc 6 exited 0x0000000000000005\n? range\n0x0000000200000000 05 00 00 00 00 00 00 00 00 00 00 00 00 00 00 00\n0x0000000200000010 00\n0x0000000200000ff8 00 00 00 00 00 00 00 00\n? range\n",
    ),
    (
        CODE,
        b"v 01\nv 18446744073709551616\nm 0x300000000 257\nm 0x3000007ff 0\nm 0x400000000 1\nm 0xffffffffffffffff 2\nm 0X3 1\nm 0x00000000300000000 1\nf 1\n",
        b"? what\n? range\n? range\n? range\n? range\n? range\n? what\n? what\n? what\n",
    ),
    (
        CODE,
        b"b 9\nb 8\nb 7\nb 6\nb 5\nb 4\nb 3\nb 2\nb 1\nd 5\nc 5\nrc\n",
        b"break 9\nbreak 8\nbreak 7\nbreak 6\nbreak 5\nbreak 4\nbreak 3\nbreak 2\nbreak 1\nclear 5\nstep 1 pc 1 running\nstep 0 pc 0 running\n",
    ),
];

/// The image of this code.
fn image(alloc: Global, code: &[u8]) -> Option<Image> {
    let code = Vec::from_slice(alloc, code).ok()?;
    Image::new(code, Vec::new(alloc)).ok()
}

/// The end of a session with this code and five null roots.
fn ended(alloc: Global, code: &[u8], feed: &mut Feed, tape: &mut Tape) -> Ended {
    talk(alloc, image(alloc, code), null_table(alloc), feed, tape)
}

/// Whether a session with this code, which reads and writes in pieces of this size, writes this.
fn says(alloc: Global, code: &[u8], input: &'static [u8], said: &[u8], piece: usize) -> bool
    requires { 0 < piece }
{
    let mut feed = Feed::new(input, piece, 0);
    let mut tape = Tape::new(Vec::new(alloc), piece, 0, 0);
    ended(alloc, code, &mut feed, &mut tape) == Some(Ok(())) && tape.bytes() == said
}

fn right_commands(alloc: Global) -> usize {
    for (place, &(code, input, said)) in COMMANDS.iter().enumerate() {
        if !says(alloc, code, input, said, 1000) {
            return place;
        }
    }
    15
}

#[test]
fn breaks_and_lists(rt: HostRuntime) {
    assert_rows(&rt, right_commands(rt.alloc()), 15);
}

/// Inputs, and the text that is written.
#[rattlefmt::skip]
const TALKS: [(&[u8], &[u8]); 8] = [
    (b"s 1\nrs 1\nrs 1\ns 0\ns 01\ns 1000001\nx\nq\n", b"step 1 pc 1 running\nstep 0 pc 0 running\n? range\n? range\n? what\n? range\n? what\n"),
    (b"s 1\nq\ns 1\n", b"step 1 pc 1 running\n"),
    (b"s 2", b"step 2 pc 1 exited 0x0000000000000005\n"),
    (b"s 1000000\nrs 999999\n", b"step 1000000 pc 1 exited 0x0000000000000005\nstep 1 pc 1 running\n"),
    (b"\n\r\ns  1\n", b"? what\n? what\n? what\n"),
    (b"s 11111111111111111111111111111111111111111111111111111111111111\n", b"? range\n"),
    (b"s 111111111111111111111111111111111111111111111111111111111111111\n", b"? what\n"),
    (
        b"s 1\nr\n",
        b"step 1 pc 1 running\nr0 0x0000000000000005\nr1 0x0000000000000000\nr2 0x0000000000000000\nr3 0x0000000000000000\nr4 0x0000000000000000\nr5 0x0000000000000000\nr6 0x0000000000000000\nr7 0x0000000000000000\nr8 0x0000000000000000\nr9 0x0000000000000000\nr10 0x0000000100000200\n",
    ),
];

/// Whether this is written, whatever the size of the pieces.
fn says_in_pieces(alloc: Global, input: &'static [u8], said: &[u8]) -> bool {
    says(alloc, CODE, input, said, 1)
        && says(alloc, CODE, input, said, 2)
        && says(alloc, CODE, input, said, 1000)
}

fn right_talks(alloc: Global) -> usize {
    for (place, &(input, said)) in TALKS.iter().enumerate() {
        if !says_in_pieces(alloc, input, said) {
            return place;
        }
    }
    8
}

#[test]
fn answers_lines(rt: HostRuntime) {
    assert_rows(&rt, right_talks(rt.alloc()), 8);
}

/// `r1 = 0x200000000`, `r0 = [r1]`, `r0 += 5`, `[r1] = r0`, `r2 = [r1]` and `exit`.
const STORES: &[u8] =
    b"\x18\x01\0\0\0\0\0\0\0\0\0\0\x02\0\0\0\x79\x10\0\0\0\0\0\0\x07\0\0\0\x05\0\0\0\x7b\x01\0\0\0\0\0\0\x79\x12\0\0\0\0\0\0\x95\0\0\0\0\0\0\0";

/// Moves past a store, back, and forward to the load before it, which reads the initial zero.
const BACK: &[u8] = b"s 5\nrs 4\ns 2\nr\ns 3\n";

const WENT_BACK: &[u8] =
    b"step 5 pc 6 running\nstep 1 pc 2 running\nstep 3 pc 4 running\nr0 0x0000000000000005\nr1 0x0000000200000000\nr2 0x0000000000000000\nr3 0x0000000000000000\nr4 0x0000000000000000\nr5 0x0000000000000000\nr6 0x0000000000000000\nr7 0x0000000000000000\nr8 0x0000000000000000\nr9 0x0000000000000000\nr10 0x0000000100000200\nstep 6 pc 6 exited 0x0000000000000005\n";

#[test]
fn goes_back_over_a_store(rt: HostRuntime) {
    assert!(rt; says(rt.alloc(), STORES, BACK, WENT_BACK, 1000));
}

/// Inputs, and the text that is written if no allocation fails, and if the allocation for one of their lines fails.
#[rattlefmt::skip]
const REFUSED: [(&[u8], [&[u8]; 3]); 5] = [
    (b"w\nw\nx\n", [b"verdict 0 0\nverdict 0 0\n? what\n", b"? memory\nverdict 0 0\n? what\n", b"verdict 0 0\n? memory\n? what\n"]),
    (
        b"v 3\nm 0x300000000 1\nv 0\nf\n",
        [
            b"value 3 true\n0x0000000300000000 00\nvalue 0 error\ndepth 0\n",
            b"? memory\n0x0000000300000000 00\nvalue 0 error\ndepth 0\n",
            b"value 3 true\n0x0000000300000000 00\n? memory\ndepth 0\n",
        ],
    ),
    (
        b"s 1\ns 1\nx\n",
        [
            b"step 1 pc 1 running\nstep 2 pc 1 exited 0x0000000000000005\n? what\n",
            b"? memory\nstep 1 pc 1 running\n? what\n",
            b"step 1 pc 1 running\n? memory\n? what\n",
        ],
    ),
    (
        b"l\nl\nx\n",
        [
            b"0 mov64 r0, 5\n1 exit\n0 mov64 r0, 5\n1 exit\n? what\n",
            b"? memory\n0 mov64 r0, 5\n1 exit\n? what\n",
            b"0 mov64 r0, 5\n1 exit\n? memory\n? what\n",
        ],
    ),
    (
        b"b 10\nb 20\nb 30\nb 40\nb 50\nb 60\nb 70\nb 80\nb 1\nd 10\nc 1\n",
        [
            b"break 10\nbreak 20\nbreak 30\nbreak 40\nbreak 50\nbreak 60\nbreak 70\nbreak 80\nbreak 1\nclear 10\nstep 1 pc 1 running\n",
            b"break 10\nbreak 20\nbreak 30\nbreak 40\nbreak 50\nbreak 60\nbreak 70\nbreak 80\n? memory\nclear 10\nstep 1 pc 1 running\n",
            b"break 10\nbreak 20\nbreak 30\nbreak 40\nbreak 50\nbreak 60\nbreak 70\nbreak 80\nbreak 1\nclear 10\n? memory\n",
        ],
    ),
];

/// Whether a session that ended so wrote one of these, or nothing if it could not begin.
fn is_one_of(ended: Ended, written: &[u8], said: &[&[u8]]) -> bool {
    match ended {
        Some(Ok(())) => said.contains(&written),
        Some(Err(error)) => error == SessionError::Memory && written.is_empty(),
        None => false,
    }
}

/// Whether a session writes one of these, or nothing if it could not begin.
fn says_one_of(alloc: Global, input: &'static [u8], said: &[&[u8]]) -> Result<bool, AllocError> {
    let mut feed = Feed::new(input, 1, 0);
    let mut tape = Tape::new(Vec::with_capacity(alloc, 200)?, 1000, 0, 0);
    let ended = ended(alloc, CODE, &mut feed, &mut tape);
    Ok(is_one_of(ended, tape.bytes(), said))
}

fn right_refusals(alloc: Global) -> Result<usize, AllocError> {
    for (place, (input, said)) in REFUSED.iter().enumerate() {
        if !says_one_of(alloc, *input, said)? {
            return Ok(place);
        }
    }
    Ok(5)
}

#[test]
fn refuses_single_lines(rt: HostRuntime) {
    assert_rows(&rt, right_refusals(rt.alloc()).unwrap_or(0), 5);
}

/// A line after `q` is not read, and neither is a line after one whose reply was not written.
#[test]
fn reads_no_further(rt: HostRuntime) {
    assert!(rt; leaves(rt.alloc(), b"x\nq\ns 1\n", 0, b's'));
    assert!(rt; leaves(rt.alloc(), b"x\ns 1\n", 1, b's'));
}

/// Whether this is the first byte that a session does not read if its write with this number fails.
fn leaves(alloc: Global, input: &'static [u8], fails_at: u64, next: u8) -> bool {
    let mut feed = Feed::new(input, 7, 0);
    let mut tape = Tape::new(Vec::new(alloc), 1000, fails_at, 0);
    let _ = ended(alloc, CODE, &mut feed, &mut tape);
    is_next(&mut feed, next)
}

/// Whether this is the next byte.
fn is_next(feed: &mut Feed, next: u8) -> bool {
    let mut buf = [0u8; 1];
    feed.read(&mut buf) == Ok(1) && buf[0] == next
}
