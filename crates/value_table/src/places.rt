//! The places of the values that a program refers to. Reference 0 is the error and has no place.

ghost use Rattle.std.specs.Prelude.{◌≡◌, ◌+◌, length, slice_get, IsSome};
ghost use Rattle.value_store.specs.Calls.{value_at};
ghost use Rattle.value_table.specs.References.{place_at, reference_values, AreReferences, IsPlace};

use crate::heap::Heap;
use crate::sequence::Sequence;

/// The reference that the next place gets.
pub(crate) fn next_reference(places: &Sequence<u64>) -> u64
    ensures { result ≡ length places.now + 1 }
{
    places.len() as u64 + 1
}

/// The place of a reference's cell, if it has one.
pub(crate) fn place_of(places: &Sequence<u64>, h: u64) -> Option<u64>
    ensures { result ≡ place_at places.now h }
{
    if h == 0 {
        return None;
    }
    places.get((h - 1) as usize)
}

/// The place of a value's cell.
pub(crate) fn place(heap: &Heap, places: &Sequence<u64>, h: u64) -> u64
    requires sound { AreReferences heap.now places.now }
    requires value { IsSome (value_at (slice_get (reference_values heap.now places.now) h)) }
    ensures { IsPlace heap.now places.now h result }
{
    place_of(places, h).unwrap()
}
