//! Tables of roots whose values are in a heap.

ghost use Rattle.std.specs.Prelude.{List};
ghost use Rattle.serde_json.specs.Data.{Data};
ghost use Rattle.value_store.specs.Roots.{start_contents};
ghost use Rattle.value_table.specs.Held.{held_contents};
ghost use Rattle.value_table.specs.Heap.{heap_values, IsHeap};
ghost use Rattle.review_tables.specs.RootPlaces.{ArePlacedValues, AreSoundPlaces, TableReturns};

use crate::placed::Placed;
use crate::review_error::ReviewError;
use crate::root_places::place_roots;
use value_table::{Heap, Table, first_places};

/// The table of five roots whose values are in a heap. The first refusal is returned: of a
/// root, by its reference, then of the charge.
pub(crate) fn placed(heap: Heap, roots: &[Option<Placed>; 5]) -> Result<Table, ReviewError>
    requires heap { IsHeap heap }
    requires sound { AreSoundPlaces (heap_values heap) roots.now }
    ensures { (ds : List Data) → ArePlacedValues (heap_values heap) roots.now ds → TableReturns held_contents result (start_contents ds) }
{
    let mut heap = heap;
    let mut places = first_places(&mut heap)?;
    let charge = place_roots(&heap, &mut places, roots)?;
    Ok(Table::of_parts(heap, places, charge))
}
