//! The places of a review's five roots.

ghost use Rattle.std.specs.Prelude.{◌≡◌, map, ◌++◌, IfOk, OnOk};
ghost use Rattle.std.specs.List.{AllByRecursion};
ghost use Rattle.serde_json.specs.View.{view};
ghost use Rattle.value_store.specs.Value.{value};
ghost use Rattle.value_store.specs.Placing.{first_values};
ghost use Rattle.value_store.specs.Plain.{plain_value};
ghost use Rattle.value_table.specs.Growing.{HasGrown};
ghost use Rattle.value_table.specs.Heap.{heap_values, IsHeap};
ghost use Rattle.value_table.specs.Start.{StartsWithValues, IsWelcome};

use crate::documents::add_document;
use crate::heap::Heap;
use crate::sequence::Sequence;
use serde_json::Value;
use std::alloc::AllocError;

/// The number of places for which capacity is reserved: those of null, false, true and the roots, and
/// as many for values that the program creates.
const FIRST_PLACES: usize = 16;

/// The places of null, false, true and the roots. The roots are dropped as their values are added.
pub(crate) fn start_places(heap: &mut Heap, roots: [Value; 5]) -> Result<Sequence<u64>, AllocError>
    requires heap { IsHeap heap.old }
    requires welcome { AllByRecursion IsWelcome (map view roots) }
    ensures { IfOk result (λ ps. StartsWithValues heap.new ps (first_values ++ map value (map plain_value (map view roots)))) }
{
    let mut places = first_places(heap)?;
    for root in roots {
        let place = add_document(heap, root)?;
        places.push(place)?;
    }
    Ok(places)
}

/// Copies of the documents.
pub(crate) fn copies(roots: &[Value; 5]) -> Result<[Value; 5], AllocError>
    ensures { IfOk result (λ copies. map view copies ≡ map view roots.now) }
{
    let [object, old_object, params, namespace, request] = roots;
    Ok([
        object.clone()?,
        old_object.clone()?,
        params.clone()?,
        namespace.clone()?,
        request.clone()?,
    ])
}

/// The places of null, false and true.
pub fn first_places(heap: &mut Heap) -> Result<Sequence<u64>, AllocError>
    requires { IsHeap heap.old }
    ensures starts { IfOk result (λ ps. StartsWithValues heap.new ps first_values) }
    ensures grown { OnOk result (HasGrown (heap_values heap.old) (heap_values heap.new)) }
{
    let mut places = Sequence::new(heap.cells.alloc())?;
    places.reserve(FIRST_PLACES)?;
    places.push(heap.add_null()?)?;
    places.push(heap.add_bool(false)?)?;
    places.push(heap.add_bool(true)?)?;
    Ok(places)
}
