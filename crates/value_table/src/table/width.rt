//! How wide values are.

ghost use Rattle.std.specs.Prelude.{◌≡◌, ◌<◌, List, length, slice_get, option_map, Some};
ghost use Rattle.value_store.specs.Value.{Value};
ghost use Rattle.value_table.specs.Equality.{AreContents, AreMeanings};
ghost use Rattle.value_table.specs.Meaning.{value_in};
ghost use Rattle.value_widths.specs.Width.{result_width, width_of};

use crate::cell::Cell;
use crate::equality::parts_of;
use crate::places::place_of;
use crate::sequence::Sequence;
use crate::table::Table;
use value_backings::Backings;

impl Table {
    /// The width of the value of a reference: how many items or entries the largest list or map in it has; 0 for the
    /// error. The recursion is as deep as the value.
    #[tactic(auto, using(crate::proofs::Comparisons::contents_of, crate::proofs::Comparisons::meanings_of))]
    pub fn width(&self, h: u64) -> u64
        requires { h < length self.now.values }
        ensures { Some result ≡ option_map result_width (slice_get self.now.values h) }
    {
        match place_of(&self.places, h) {
            Some(place) => width(&self.heap.cells, &self.heap.backings, place),
            None => 0,
        }
    }
}

// The width of the value at a place.
#[tactic(auto, using(crate::proofs::Walks::part_before))]
fn width(cells: &Sequence<Cell>, backings: &Backings, place: u64) -> u64
    requires contents { AreContents backings.now cells.now }
    requires inside { place < length cells.now }
    ensures { (vs : List Value) → AreMeanings backings.now vs cells.now → result ≡ width_of (value_in vs place) }
{
    let cell = cells.at(place as usize);
    let parts = parts_of(backings, cell.content);
    let mut widest = parts.len() as u64;
    for i in 0..parts.len() {
        widest = widest.max(width(cells, backings, parts[i] as u64));
    }
    widest
}
