//! Adds lists and maps of existing values.

ghost use Rattle.std.specs.Prelude.{◌≡◌, length, Some};
ghost use Rattle.value_store.specs.Value.{list, map};
ghost use Rattle.value_store.specs.Keys.{IsOrdered};
ghost use Rattle.value_table.specs.Meaning.{items_at, entries_at};
ghost use Rattle.value_table.specs.Heap.{heap_values, IsHeap, Gains};
ghost use Rattle.value_table.specs.Heaps.{AreBelow, AreTexts};
ghost use Rattle.value_table.specs.Measures.{IsMeasure};

use crate::cell::Cell;
use crate::content::Content;
use crate::heap::{Heap, room_for_cell};
use crate::lengths::{pushed_length, put_length};
use crate::measure::Measure;
use shared_lists::small;
use std::alloc::AllocError;
use value_backings::Part;

// The whole gets one cell, and each part is measured once.
impl Heap {
    /// Adds a list whose items are at these places.
    pub fn add_list(&mut self, places: &[u32]) -> Result<u64, AllocError>
        requires heap { IsHeap self.old }
        requires items { AreBelow (length (heap_values self.old)) places.now }
        requires ordered { IsOrdered (list (items_at (heap_values self.old) places.now)) }
        ensures { Gains self.old (Some (list (items_at (heap_values self.old) places.now))) result self.new }
    {
        let measure = self.list_measure(places);
        let count = small(places.len())?;
        let cells = room_for_cell(&mut self.cells, &mut self.same)?;
        let backing = self.backings.pool_items(places)?;
        Ok(cells.append(Cell {
            content: Content::List(backing, count),
            depth: measure.depth,
            json: measure.json,
        }))
    }

    /// Adds a map with these texts as keys and the values at these places.
    pub fn add_map(&mut self, keys: &[Part], places: &[u32]) -> Result<u64, AllocError>
        requires heap { IsHeap self.old }
        requires texts { AreTexts self.old.backings.bytes keys.now }
        requires values { AreBelow (length (heap_values self.old)) places.now }
        requires pairs { length keys.now ≡ length places.now }
        requires ordered { IsOrdered (map (entries_at self.old.backings.bytes (heap_values self.old) keys.now places.now)) }
        ensures { Gains self.old (Some (map (entries_at self.old.backings.bytes (heap_values self.old) keys.now places.now))) result self.new }
    {
        let measure = self.map_measure(keys, places);
        let count = small(places.len())?;
        let cells = room_for_cell(&mut self.cells, &mut self.same)?;
        let (row, backing) = self.backings.add_entries(keys, places)?;
        Ok(cells.append(Cell {
            content: Content::Map(row, backing, count),
            depth: measure.depth,
            json: measure.json,
        }))
    }

    // The measure of the list of the values at these places.
    #[tactic(auto, using(crate::proofs::Walks::below_here, std::proofs::lemmas::List::take_all))]
    fn list_measure(&self, places: &[u32]) -> Measure
        requires heap { IsHeap self.now }
        requires items { AreBelow (length (heap_values self.now)) places.now }
        ensures { IsMeasure (length (heap_values self.now)) (list (items_at (heap_values self.now) places.now)) result }
    {
        let mut measure = Measure { depth: 1, json: 2 };
        let mut count = 0u64;
        for place in places {
            let item = self.cell(*place as u64);
            measure = Measure {
                depth: measure.depth.max(item.depth.saturating_add(1)),
                json: pushed_length(measure.json, count, item.json),
            };
            count = count.saturating_add(1);
        }
        measure
    }

    // The measure of the map with these keys and the values at these places.
    #[tactic(auto, using(crate::proofs::Walks::below_here, std::proofs::lemmas::List::take_all))]
    fn map_measure(&self, keys: &[Part], places: &[u32]) -> Measure
        requires heap { IsHeap self.now }
        requires texts { AreTexts self.now.backings.bytes keys.now }
        requires values { AreBelow (length (heap_values self.now)) places.now }
        requires pairs { length keys.now ≡ length places.now }
        ensures { IsMeasure (length (heap_values self.now)) (map (entries_at self.now.backings.bytes (heap_values self.now) keys.now places.now)) result }
    {
        let mut measure = Measure { depth: 1, json: 2 };
        for i in 0..keys.len() {
            let key = keys[i].json as u64;
            let value = self.cell(places[i] as u64);
            measure = Measure {
                depth: measure.depth.max(value.depth.saturating_add(1)),
                json: put_length(measure.json, i as u64, key, value.json),
            };
        }
        measure
    }
}
