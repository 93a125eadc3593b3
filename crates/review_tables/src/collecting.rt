//! Builds lists and maps from values that were read.

ghost use Rattle.std.specs.Prelude.{◌≡◌, ◌+◌, length, IfOk, option_map};
ghost use Rattle.value_store.specs.Plain.{saturated};
ghost use Rattle.value_store.specs.Value as kind;
ghost use Rattle.value_table.specs.Heap.{heap_values, IsHeap};
ghost use Rattle.review_tables.specs.Reading.{AddsPlaced, IsPendingList, pending_value, AreSoundEntries, placed_entries};

use crate::members::Members;
use crate::pending_list::PendingList;
use crate::pending_map::PendingMap;
use crate::placed::Placed;
use std::alloc::AllocError;
use value_table::{Heap, Part, small};

/// Adds the list of these items; `None` if one of them has no value.
pub(crate) fn add_pending(
    heap: &mut Heap,
    pending: &PendingList,
) -> Result<Option<Placed>, AllocError>
    requires heap { IsHeap heap.old }
    requires pending { IsPendingList (heap_values heap.old) pending.now }
    ensures { IfOk result (λ p. AddsPlaced heap.old heap.new p (pending_value (heap_values heap.old) pending.now)) }
{
    if !pending.whole {
        return Ok(None);
    }
    let place = heap.add_list(&pending.places)?;
    let size = pending.size;
    Ok(Some(Placed { place, size }))
}

/// Adds the map of these members; `None` if one of them has no value. The vectors hold its entries.
pub(crate) fn add_members(
    heap: &mut Heap,
    found: &Members<'_>,
    kept: &mut PendingMap,
) -> Result<Option<Placed>, AllocError>
    requires heap { IsHeap heap.old }
    requires sound { AreSoundEntries (heap_values heap.old) found.now.entries }
    ensures { IfOk result (λ p. AddsPlaced heap.old heap.new p (option_map kind.map (placed_entries (heap_values heap.old) found.now.entries))) }
{
    collect(heap, found, &mut kept.keys, &mut kept.places)
}

// `add_members` with the two vectors to use. Their contents are dropped first.
fn collect(
    heap: &mut Heap,
    found: &Members<'_>,
    keys: &mut Vec<Part>,
    places: &mut Vec<u32>,
) -> Result<Option<Placed>, AllocError>
    requires heap { IsHeap heap.old }
    requires sound { AreSoundEntries (heap_values heap.old) found.now.entries }
    ensures { IfOk result (λ p. AddsPlaced heap.old heap.new p (option_map kind.map (placed_entries (heap_values heap.old) found.now.entries))) }
{
    keys.clear();
    places.clear();
    let mut size = 1u64;
    for (key, member) in found.entries() {
        let Some(member) = *member else {
            return Ok(None);
        };
        size = entry_size(size, key, member);
        let at = small(member.place as usize)?;
        keys.push(heap.add_key(key)?)?;
        places.push(at)?;
    }
    let place = heap.add_map(&keys[..], &places[..])?;
    Ok(Some(Placed { place, size }))
}

// The size of a map with one more entry.
fn entry_size(size: u64, key: &str, member: Placed) -> u64
    ensures { result ≡ saturated (saturated (size + (1 + length key.now)) + member.size) }
{
    size.saturating_add(1u64.saturating_add(key.len() as u64))
        .saturating_add(member.size)
}
