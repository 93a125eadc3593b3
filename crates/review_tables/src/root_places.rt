//! The roots at references 4 to 8.

ghost use Rattle.std.specs.Prelude.{List, IfOk};
ghost use Rattle.serde_json.specs.Data.{Data};
ghost use Rattle.value_store.specs.Placing.{first_values};
ghost use Rattle.value_store.specs.Roots.{start_contents};
ghost use Rattle.value_table.specs.Heap.{heap_values, IsHeap};
ghost use Rattle.review_tables.specs.RootPlaces.{ArePlacedValues, AreSoundPlaces, ChargeReturns, IsCharged};
ghost use Rattle.value_table.specs.Start.{StartsWithValues};

use crate::placed::Placed;
use crate::review_error::ReviewError;
use crate::root_kind::root;
use value_store::CHARGE_LIMIT;
use value_table::{Heap, Sequence};

/// Appends the places of the roots to those of null, false and true, and returns the charge of the
/// roots. The first refusal is returned: of a root, by its reference, then of the charge.
pub(crate) fn place_roots(
    heap: &Heap,
    places: &mut Sequence<u64>,
    roots: &[Option<Placed>; 5],
) -> Result<u64, ReviewError>
    requires heap { IsHeap heap.now }
    requires starts { StartsWithValues heap.now places.old first_values }
    requires sound { AreSoundPlaces (heap_values heap.now) roots.now }
    ensures charged { IfOk result (λ n. IsCharged heap.now places.new n) }
    ensures due { (ds : List Data) → ArePlacedValues (heap_values heap.now) roots.now ds → ChargeReturns heap.now places.new result (start_contents ds) }
{
    let mut charge = 0u64;
    let mut reference = 4u64;
    for given in roots {
        let Some(placed) = root(heap, *given) else {
            return Err(ReviewError::RootRefused(reference));
        };
        places.push(placed.place)?;
        charge = charge.saturating_add(placed.size);
        reference += 1;
    }
    if charge > CHARGE_LIMIT {
        return Err(ReviewError::ChargeTooLarge);
    }
    Ok(charge)
}
