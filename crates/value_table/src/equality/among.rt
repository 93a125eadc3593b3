//! Whether a value is among others.

ghost use Rattle.std.specs.Prelude.{◌≡◌, ◌<◌, List, length, slice_get, Some};
ghost use Rattle.value_store.specs.Value.{Value};
ghost use Rattle.value_store.specs.Equality.{equal};
ghost use Rattle.value_store.specs.Lookup.{has_item};
ghost use Rattle.value_table.specs.Meaning.{value_in, items_at};
ghost use Rattle.value_table.specs.Heaps.{AreBelow, AreSame};
ghost use Rattle.value_table.specs.Equality.{AreContents};
ghost use Rattle.value_table.specs.Known.{AreKnown};

use crate::cell::Cell;
use crate::equality::by_cells::equal_by_cells;
use crate::equality::walk;
use crate::sequence::Sequence;
use value_backings::Backings;

/// Whether one of the cells at `places` has a value equal to that of the cell at `x`.
#[tactic(auto, using(crate::proofs::Walks::below_here))]
pub(crate) fn is_among(
    cells: &Sequence<Cell>,
    backings: &Backings,
    same: &mut [u64],
    x: u64,
    places: &[u32],
) -> bool
    requires contents { AreContents backings.now cells.now }
    requires value { x < length cells.now }
    requires places { AreBelow (length cells.now) places.now }
    ensures { (vs : List Value) → AreKnown backings.now vs cells.now → AreSame vs same.old → AreSame vs same.new × (result ≡ has_item (value_in vs x) (items_at vs places.now)) }
{
    let sought = cells.at(x as usize);
    for i in 0..places.len() {
        if is_equal(cells, backings, same, (x, sought), places[i] as u64) {
            return true;
        }
    }
    false
}

// Whether the value of a cell with its place equals that of another.
fn is_equal(
    cells: &Sequence<Cell>,
    backings: &Backings,
    same: &mut [u64],
    sought: (u64, Cell),
    place: u64,
) -> bool
    requires contents { AreContents backings.now cells.now }
    requires sought { slice_get cells.now sought.0 ≡ Some sought.1 }
    requires inside { place < length cells.now }
    ensures { (vs : List Value) → AreKnown backings.now vs cells.now → AreSame vs same.old → AreSame vs same.new × (result ≡ equal (value_in vs sought.0) (value_in vs place)) }
{
    let (x, left) = sought;
    let right = cells.at(place as usize);
    match equal_by_cells(backings, left, right) {
        Some(answer) => answer,
        None => walk::equal(cells, backings, same, x, place),
    }
}
