//! Builds requests from their members.

ghost use Rattle.std.specs.Prelude.{◌≡◌, ◌<◌, length, IfOk};
ghost use Rattle.serde_json.specs.Data as json;
ghost use Rattle.value_table.specs.Meaning.{value_in};
ghost use Rattle.value_table.specs.Heap.{heap_values, IsHeap};
ghost use Rattle.review_tables.specs.Reading.{AreMembers, AreSomeMembers};
ghost use Rattle.review_tables.specs.ReviewReading.{is_text_value, IsUidOf, MakesRequest, TakesMember};

use crate::collecting::add_members;
use crate::members::Members;
use crate::pending_map::PendingMap;
use crate::placed::Placed;
use crate::placed_request::PlacedRequest;
use crate::reading::add_null;
use std::alloc::AllocError;
use value_table::{Content, Heap};

/// The parts of a request with these members, if its `uid` is a text. The members other than
/// `object` and `oldObject` become a map.
pub(crate) fn request_of(
    heap: &mut Heap,
    found: Members<'_>,
    kept: &mut PendingMap,
) -> Result<Option<PlacedRequest>, AllocError>
    requires heap { IsHeap heap.old }
    requires found { AreSomeMembers (heap_values heap.old) found.entries }
    ensures { IfOk result (λ r. (ms : json.Members) → AreMembers (heap_values heap.old) found.entry.entries ms → MakesRequest heap.old heap.new r ms) }
{
    let Some(uid) = find_uid(heap, &found) else {
        return Ok(None);
    };
    let mut rest = found;
    let object = take(heap, &mut rest, "object")?;
    let old_object = take(heap, &mut rest, "oldObject")?;
    let rest = add_members(heap, &rest, kept)?;
    Ok(Some(PlacedRequest {
        uid,
        object,
        old_object,
        rest,
    }))
}

// The place of the member `uid`, if it is a text.
fn find_uid(heap: &Heap, found: &Members<'_>) -> Option<u64>
    requires heap { IsHeap heap.now }
    requires found { AreSomeMembers (heap_values heap.now) found.now.entries }
    ensures { (ms : json.Members) → AreMembers (heap_values heap.now) found.now.entries ms → IsUidOf (heap_values heap.now) result ms }
{
    match found.get("uid") {
        Some(member) => match *member {
            Some(uid) => {
                if is_text_at(heap, uid.place) {
                    return Some(uid.place);
                }
                None
            }
            None => None,
        },
        None => None,
    }
}

fn is_text_at(heap: &Heap, place: u64) -> bool
    requires heap { IsHeap heap.now }
    requires inside { place < length (heap_values heap.now) }
    ensures { result ≡ is_text_value (value_in (heap_values heap.now) place) }
{
    matches!(heap.cell(place).content, Content::Text(_))
}

// Removes the member with this key; null if there is none.
fn take(heap: &mut Heap, found: &mut Members<'_>, key: &str) -> Result<Option<Placed>, AllocError>
    requires heap { IsHeap heap.old }
    ensures { IfOk result (λ p. (ms : json.Members) → AreMembers (heap_values heap.old) found.old.entries ms → TakesMember heap.old heap.new key.now found.old.entries found.new.entries p ms) }
{
    match found.remove(key) {
        Some(member) => Ok(member),
        None => Ok(Some(add_null(heap)?)),
    }
}
