//! The steps that a run replays to show a place.
use super::{Plain, begun};
use crate::tests::assert_rows;
use history::{History, Past};
use std::alloc::{AllocError, Global};

/// `r1 = [r10 - 8]`, `r1 += 1`, `[r10 - 8] = r1`, and a jump back to the start.
const COUNTS: &[u8] =
    b"\x79\xa1\xf8\xff\0\0\0\0\x07\x01\0\0\x01\0\0\0\x7b\x1a\xf8\xff\0\0\0\0\x05\0\xfc\xff\0\0\0\0";

/// Places in the order in which they are shown, with the number of steps replayed for each: from the place shown
/// before, from the start, or from the last multiple of 1,024.
const REPLAYED: [(u64, u64); 9] = [
    (1_000_000, 1_000_000),
    (999_999, 575),
    (999_998, 574),
    (999_998, 0),
    (3, 3),
    (100_003, 100_000),
    (100_002, 674),
    (100_004, 2),
    (98_304, 0),
];

/// The number of these places before the first that is shown with a different number of steps.
fn right_replays(history: &mut Past<Plain>) -> Result<usize, AllocError> {
    for (row, &(place, steps)) in REPLAYED.iter().enumerate() {
        history.go(place)?;
        if history.replayed() != steps {
            return Ok(row);
        }
    }
    Ok(9)
}

/// The number of places that are right in a run of `COUNTS`.
fn right_places(alloc: Global) -> Option<usize> {
    let mut history = begun(alloc, COUNTS)?;
    right_replays(&mut history).ok()
}

#[test]
fn replays_from_the_nearest(rt: HostRuntime) {
    assert_rows(&rt, right_places(rt.alloc()).unwrap_or(0), 9);
}
