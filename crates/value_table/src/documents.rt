//! Adds documents to a heap.

ghost use Rattle.std.specs.Prelude.{◌≡◌, false, length, map, string_bytes};
ghost use Rattle.serde_json.specs.View.{view, items_view, members_view};
ghost use Rattle.value_store.specs.Value as kind;
ghost use Rattle.value_store.specs.Keys.{IsOrdered};
ghost use Rattle.value_store.specs.Roots.{has_other, items_have_other, members_have_other};
ghost use Rattle.value_store.specs.Plain.{plain_value, plain_items, plain_entries};
ghost use Rattle.value_table.specs.Growing.{Enters};
ghost use Rattle.value_table.specs.Heads.{entries_of, values_at};
ghost use Rattle.value_table.specs.Heap.{heap_values, IsHeap};
ghost use Rattle.value_table.specs.Heaps.{AreBelow};

use crate::heap::Heap;
use serde_json::{Map, Value};
use shared_lists::small;
use std::alloc::AllocError;

/// Adds the value of a document whose numbers are 64-bit signed integers. The document is dropped
/// piece by piece as its values are added. The recursion is as deep as the document.
#[cycle(add_document)]
pub(crate) fn add_document(heap: &mut Heap, document: Value) -> Result<u64, AllocError>
    requires heap { IsHeap heap.old }
    requires whole { has_other (view document) ≡ false }
    requires ordered { IsOrdered (plain_value (view document)) }
    ensures { Enters heap.old (plain_value (view document)) result heap.new }
{
    match document {
        Value::Null => heap.add_null(),
        Value::Bool(truth) => heap.add_bool(truth),
        // All numbers of the document are 64-bit signed integers.
        Value::Number(n) => heap.add_int(n.as_i64().unwrap_or(0)),
        Value::String(text) => heap.add_text(text.as_str()),
        Value::Array(items) => add_items(heap, items),
        Value::Object(members) => add_members(heap, members),
    }
}

#[cycle(add_document)]
#[tactic(auto, using(crate::proofs::Growing::items_end, std::proofs::lemmas::List::nil_from_length))]
fn add_items(heap: &mut Heap, items: Vec<Value>) -> Result<u64, AllocError>
    requires heap { IsHeap heap.old }
    requires whole { items_have_other (items_view items.items) ≡ false }
    requires ordered { IsOrdered (kind.list (plain_items (items_view items.items))) }
    ensures { Enters heap.old (kind.list (plain_items (items_view items.items))) result heap.new }
{
    let mut places = Vec::with_capacity(heap.cells.alloc(), items.len())?;
    for item in items {
        let place = add_document(heap, item)?;
        let at = small(place as usize)?;
        places.push(at)?;
    }
    heap.add_list(&places)
}

#[cycle(add_document)]
#[tactic(auto, using(crate::proofs::Growing::members_end))]
fn add_members(heap: &mut Heap, members: Map<String, Value>) -> Result<u64, AllocError>
    requires heap { IsHeap heap.old }
    requires whole { members_have_other (members_view members.entries) ≡ false }
    requires ordered { IsOrdered (kind.map (plain_entries (members_view members.entries))) }
    ensures { Enters heap.old (kind.map (plain_entries (members_view members.entries))) result heap.new }
{
    let mut keys = Vec::with_capacity(heap.cells.alloc(), members.len())?;
    let mut places = Vec::with_capacity(heap.cells.alloc(), members.len())?;
    for (key, member) in members {
        let place = add_document(heap, member)?;
        let at = small(place as usize)?;
        places.push(at)?;
        keys.push(key)?;
    }
    add_entries(heap, &keys, &places)
}

// Adds the map with these keys and the values at these places.
fn add_entries(heap: &mut Heap, keys: &[String], places: &[u32]) -> Result<u64, AllocError>
    requires heap { IsHeap heap.old }
    requires values { AreBelow (length (heap_values heap.old)) places.now }
    requires pairs { length keys.now ≡ length places.now }
    requires ordered { IsOrdered (kind.map (entries_of (map string_bytes keys.now) (values_at (heap_values heap.old) places.now))) }
    ensures { Enters heap.old (kind.map (entries_of (map string_bytes keys.now) (values_at (heap_values heap.old) places.now))) result heap.new }
{
    let mut parts = Vec::with_capacity(heap.cells.alloc(), places.len())?;
    for key in keys {
        parts.push(heap.add_key(key.as_str())?)?;
    }
    heap.add_map(&parts, places)
}
