//! Random calls, drawn from a seed.

use crate::helper_tests::BASE;
use crate::helper_tests::same_calls::kind::Kind;
use crate::helper_tests::same_calls::numbers::Numbers;
use Kind::{Address, Any, Int, Length, List, Map, Place, Text, Unused};
use value_store::ValueStore;

/// A helper with its first three arguments.
pub(crate) type Call = (i32, [u64; 3]);

/// Helpers with the kinds of their arguments. Calls that make values are listed more than once.
const TAKEN: [(i32, [Kind; 3]); 42] = [
    (1, [Any, Unused, Unused]),
    (2, [Int, Unused, Unused]),
    (3, [Place, Unused, Unused]),
    (3, [Address, Unused, Unused]),
    (4, [Address, Length, Unused]),
    (4, [Address, Length, Unused]),
    (4, [Address, Length, Unused]),
    (5, [Map, Address, Length]),
    (5, [Map, Address, Length]),
    (6, [Map, Address, Length]),
    (7, [List, Int, Unused]),
    (7, [Map, Text, Unused]),
    (8, [Any, Unused, Unused]),
    (9, [Any, Any, Unused]),
    (9, [List, List, Unused]),
    (9, [Map, Map, Unused]),
    (9, [Text, Text, Unused]),
    (10, [Int, Int, Unused]),
    (10, [Text, Text, Unused]),
    (11, [Text, Text, Unused]),
    (11, [List, List, Unused]),
    (11, [List, List, Unused]),
    (12, [Text, Text, Unused]),
    (13, [Text, Text, Unused]),
    (14, [Text, Text, Unused]),
    (15, [Any, List, Unused]),
    (15, [List, List, Unused]),
    (15, [Text, Map, Unused]),
    (16, [Unused, Unused, Unused]),
    (17, [List, Any, Unused]),
    (17, [List, Any, Unused]),
    (17, [List, List, Unused]),
    (17, [List, Map, Unused]),
    (18, [Unused, Unused, Unused]),
    (19, [Map, Text, Any]),
    (19, [Map, Text, Any]),
    (19, [Map, Text, Map]),
    (20, [List, Place, Unused]),
    (20, [Map, Place, Unused]),
    (21, [List, Unused, Unused]),
    (22, [Int, Unused, Unused]),
    (23, [Any, Unused, Unused]),
];

/// A reference, to a value of this kind if a few tries find one. The later of two values is often preferred, so that
/// values are built from new ones as well as from old ones.
fn reference<V: ValueStore>(table: &V, numbers: &mut Numbers, kind: Kind) -> u64 {
    let len = table.len();
    if numbers.below(100) == 0 {
        // the last reference, or one of the two after it
        return len.wrapping_sub(1).wrapping_add(numbers.below(3));
    }
    let mut h = numbers.below(len);
    if numbers.below(2) == 0 {
        let other = numbers.below(len);
        h = h.max(other);
    }
    for _ in 0..numbers.below(12) {
        if kind.is_at(table, h) {
            return h;
        }
        h = numbers.below(len);
    }
    h
}

fn argument<V: ValueStore>(table: &V, numbers: &mut Numbers, kind: Kind) -> u64 {
    match kind {
        Unused => numbers.below(u64::MAX),
        Place | Length => numbers.below(4),
        Address => BASE.wrapping_add(numbers.below(6)),
        _ => reference(table, numbers, kind),
    }
}

/// The number of a helper, sometimes drawn at random, and the kinds of its arguments.
fn helper(numbers: &mut Numbers) -> (i32, [Kind; 3]) {
    let place = numbers.below(TAKEN.len() as u64);
    let (id, kinds) = match TAKEN.get(place as usize) {
        Some(taken) => *taken,
        None => (0, [Unused, Unused, Unused]),
    };
    if numbers.below(50) == 0 {
        (i32::try_from(numbers.below(26)).unwrap_or(id), kinds)
    } else {
        (id, kinds)
    }
}

/// A call whose arguments mostly have the kinds that its helper takes.
pub(crate) fn drawn<V: ValueStore>(table: &V, numbers: &mut Numbers) -> Call {
    let (id, [first, second, third]) = helper(numbers);
    let a = argument(table, numbers, first);
    let b = argument(table, numbers, second);
    let c = argument(table, numbers, third);
    (id, [a, b, c])
}
