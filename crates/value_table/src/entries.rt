//! Maps in a heap.

ghost use Rattle.std.specs.Prelude.{◌<◌, length, Some, IsSome};
ghost use Rattle.value_store.specs.Value.{map, no_entries};
ghost use Rattle.value_table.specs.Meaning.{value_in};
ghost use Rattle.value_table.specs.Heap.{heap_values, IsHeap, Gains};
ghost use Rattle.value_table.specs.Entries.{put_values};

use crate::cell::Cell;
use crate::content::Content;
use crate::heap::{Heap, room_for_cell};
use crate::lengths::put_length;
use crate::search::search;
use shared_lists::small;
use std::alloc::AllocError;
use value_backings::{keys, text};

impl Heap {
    /// Adds an empty map.
    pub(crate) fn new_map(&mut self) -> Result<u64, AllocError>
        requires { IsHeap self.old }
        ensures { Gains self.old (Some (map no_entries)) result self.new }
    {
        let cells = room_for_cell(&mut self.cells, &mut self.same)?;
        let backing = self.backings.add_empty()?;
        Ok(cells.append(Cell {
            content: Content::Map(0, backing, 0),
            depth: 1,
            json: 2,
        }))
    }

    /// The map at `m` with one more entry: its key is the text at `k`, which the map does not have
    /// yet, and its value is at `x`.
    pub(crate) fn put(&mut self, m: u64, k: u64, x: u64) -> Result<u64, AllocError>
        requires heap { IsHeap self.old }
        requires map { m < length (heap_values self.old) }
        requires key { k < length (heap_values self.old) }
        requires value { x < length (heap_values self.old) }
        requires kinds { IsSome (put_values (value_in (heap_values self.old) m) (value_in (heap_values self.old) k) (value_in (heap_values self.old) x)) }
        ensures { Gains self.old (put_values (value_in (heap_values self.old) m) (value_in (heap_values self.old) k) (value_in (heap_values self.old) x)) result self.new }
    {
        let map = self.cell(m);
        let value = self.cell(x);
        let Content::Map(row, backing, count) = map.content else {
            unreachable!();
        };
        let name = self.cell(k);
        let Content::Text(key) = name.content else {
            unreachable!();
        };
        let bytes = self.backings.bytes.items();
        let Err(gap) = search(
            bytes,
            keys(self.backings.keys.items(), row as u64, count as u64),
            text(bytes, key),
        ) else {
            unreachable!();
        };
        let json = put_length(map.json, count as u64, name.json, value.json);
        let larger = small(count as usize + 1)?;
        let place = small(x as usize)?;
        let depth = map.depth.max(value.depth.saturating_add(1));
        let cells = room_for_cell(&mut self.cells, &mut self.same)?;
        let entry = self
            .backings
            .put_entry((row, backing, count), gap, key, place)?;
        Ok(cells.append(Cell {
            content: Content::Map(entry.0, entry.1, larger),
            depth,
            json,
        }))
    }
}
