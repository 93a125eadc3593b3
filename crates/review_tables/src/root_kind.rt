//! Which values may be roots.

ghost use Rattle.std.specs.Prelude.{◌≡◌, ◌<◌, ℕ, length, IfSome};
ghost use Rattle.serde_json.specs.Data.{Data};
ghost use Rattle.value_store.specs.Roots.{root_of, value_of};
ghost use Rattle.value_table.specs.Heap.{heap_values, IsHeap};
ghost use Rattle.value_table.specs.Meaning.{value_in};
ghost use Rattle.review_tables.specs.Reading.{PlacesValue, IsPlacedValue, IsSoundPlace};
ghost use Rattle.review_tables.specs.RootKind.{is_root_value, IsRootOrRefused};

use crate::placed::Placed;
use value_table::{Content, Heap};

/// The value, if it may be a root: an object or null whose numbers are 64-bit signed integers.
#[tactic(auto, using(crate::proofs::RootKinds::gives_none, crate::proofs::RootKinds::gives_some, crate::proofs::RootKinds::gives_other))]
pub(crate) fn root(heap: &Heap, root: Option<Placed>) -> Option<Placed>
    requires heap { IsHeap heap.now }
    requires sound { IsSoundPlace (heap_values heap.now) root }
    ensures placed { IfSome result (λ p. IsPlacedValue (heap_values heap.now) p) }
    ensures gives { (place : ℕ) (d : Data) → PlacesValue (heap_values heap.now) root (value_of d) → IsRootOrRefused (heap_values heap.now) place result (root_of place d) }
{
    match root {
        Some(root) => {
            if is_root_at(heap, root.place) {
                return Some(root);
            }
            None
        }
        None => None,
    }
}

fn is_root_at(heap: &Heap, place: u64) -> bool
    requires heap { IsHeap heap.now }
    requires inside { place < length (heap_values heap.now) }
    ensures { result ≡ is_root_value (value_in (heap_values heap.now) place) }
{
    match heap.cell(place).content {
        Content::Null => true,
        Content::Map(_, _, _) => true,
        _ => false,
    }
}
