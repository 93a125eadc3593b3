//! Searches of a run in both directions. The places are counted by hand from the code.
ghost use Rattle.std.specs.Prelude.{◌<◌};

use super::{Plain, begun};
use crate::tests::assert_rows;
use history::{History, Past};
use std::alloc::{AllocError, Global};

/// `r0 = 5` and `exit`: slots 0, 1 and, stopped, 1.
const SHORT: &[u8] = b"\xb7\0\0\0\x05\0\0\0\x95\0\0\0\0\0\0\0";

/// `r0 += 1`, `if r0 < 3` back to it, and `exit`: slots 0, 1, 0, 1, 0, 1, 2 and, stopped, 2.
const LOOP: &[u8] = b"\x07\0\0\0\x01\0\0\0\xa5\0\xfe\xff\x03\0\0\0\x95\0\0\0\0\0\0\0";

/// A jump to slot -4: slots 0, -4 and, stopped, -4.
const BEFORE: &[u8] = b"\x05\0\xfb\xff\0\0\0\0";

/// 2^64 - 4, which has the bits of -4.
const WRAPPED: u64 = 0xffff_ffff_ffff_fffc;

/// The code, the place that is shown, the last one to search, the slots, and the place found.
type FirstRow = (&'static [u8], u64, u64, &'static [u64], u64);

const FIRST: [FirstRow; 26] = [
    (SHORT, 0, 1, &[], 1),
    (SHORT, 0, 9, &[], 2),
    (SHORT, 0, 9, &[1], 1),
    (SHORT, 0, 9, &[0], 2),
    (SHORT, 1, 9, &[1], 2),
    (SHORT, 1, 2, &[], 2),
    (SHORT, 2, 9, &[], 3),
    (SHORT, 5, 1_000_000, &[0], 6),
    (SHORT, 2, u64::MAX, &[], 3),
    (LOOP, 0, 100, &[1], 1),
    (LOOP, 1, 100, &[1], 3),
    (LOOP, 1, 100, &[0], 2),
    (LOOP, 3, 100, &[1, 0], 4),
    (LOOP, 4, 100, &[0, 1], 5),
    (LOOP, 5, 100, &[0, 1], 7),
    (LOOP, 0, 100, &[2], 6),
    (LOOP, 0, 6, &[2], 6),
    (LOOP, 0, 5, &[2], 5),
    (LOOP, 2, 3, &[], 3),
    (LOOP, 0, 100, &[], 7),
    (LOOP, 0, 7, &[], 7),
    (LOOP, 0, 6, &[3, 65_536], 6),
    (LOOP, 6, 8, &[], 7),
    (LOOP, 7, 100, &[], 8),
    (LOOP, 10, 12, &[0], 11),
    (BEFORE, 0, 9, &[WRAPPED], 2),
];

/// The code, the place that is shown, the slots, and the place found.
type LastRow = (&'static [u8], u64, &'static [u64], u64);

const LAST: [LastRow; 23] = [
    (SHORT, 0, &[0], 0),
    (SHORT, 1, &[1], 0),
    (SHORT, 2, &[1], 1),
    (SHORT, 2, &[0], 0),
    (SHORT, 3, &[1], 2),
    (SHORT, 1_000_000, &[1], 999_999),
    (SHORT, u64::MAX, &[0], 0),
    (LOOP, 0, &[1], 0),
    (LOOP, 2, &[0], 0),
    (LOOP, 3, &[0], 2),
    (LOOP, 5, &[0], 4),
    (LOOP, 6, &[0], 4),
    (LOOP, 6, &[1], 5),
    (LOOP, 5, &[1], 3),
    (LOOP, 6, &[0, 1], 5),
    (LOOP, 6, &[2], 0),
    (LOOP, 7, &[2], 6),
    (LOOP, 8, &[2], 7),
    (LOOP, 100, &[2], 99),
    (LOOP, 100, &[1, 0], 5),
    (LOOP, 100, &[], 0),
    (LOOP, 100, &[3, 65_536], 0),
    (BEFORE, 3, &[WRAPPED], 0),
];

/// The place that a search finds, and the one that is shown afterwards.
type Found = (u64, u64);

/// The result of a forward search from this place, retrying if the first search fails.
fn first_from(
    history: &mut Past<Plain>,
    now: u64,
    to: u64,
    stops: &[u64],
) -> Result<Found, AllocError>
    requires { now < to }
{
    history.go(now)?;
    let found = match history.first(to, stops) {
        Ok(found) => found,
        Err(_) => history.first(to, stops)?,
    };
    Ok((found, history.now()))
}

fn first_in(alloc: Global, code: &[u8], now: u64, to: u64, stops: &[u64]) -> Option<Found>
    requires { now < to }
{
    let mut history = begun(alloc, code)?;
    first_from(&mut history, now, to, stops).ok()
}

/// Whether a row's place is found, and the one that is shown stays.
fn is_first(alloc: Global, row: &FirstRow) -> bool {
    let &(code, now, to, stops, found) = row;
    now < to && first_in(alloc, code, now, to, stops) == Some((found, now))
}

fn right_first(alloc: Global) -> usize {
    for (place, row) in FIRST.iter().enumerate() {
        if !is_first(alloc, row) {
            return place;
        }
    }
    26
}

#[test]
fn finds_the_first(rt: HostRuntime) {
    assert_rows(&rt, right_first(rt.alloc()), 26);
}

/// The result of a backward search from this place.
fn last_from(history: &mut Past<Plain>, now: u64, stops: &[u64]) -> Result<Found, AllocError> {
    history.go(now)?;
    let found = history.last(stops)?;
    Ok((found, history.now()))
}

fn last_in(alloc: Global, code: &[u8], now: u64, stops: &[u64]) -> Option<Found> {
    let mut history = begun(alloc, code)?;
    last_from(&mut history, now, stops).ok()
}

/// Whether a row's place is found, and the one that is shown stays.
fn is_last(alloc: Global, row: &LastRow) -> bool {
    let &(code, now, stops, found) = row;
    last_in(alloc, code, now, stops) == Some((found, now))
}

fn right_last(alloc: Global) -> usize {
    for (place, row) in LAST.iter().enumerate() {
        if !is_last(alloc, row) {
            return place;
        }
    }
    23
}

#[test]
fn finds_the_last(rt: HostRuntime) {
    assert_rows(&rt, right_last(rt.alloc()), 23);
}
