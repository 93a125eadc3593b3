//! Lists in a heap.

ghost use Rattle.std.specs.Prelude.{◌<◌, length, Some, IsSome};
ghost use Rattle.value_store.specs.Value.{list, no_items};
ghost use Rattle.value_store.specs.Calls.{push_of, join_of};
ghost use Rattle.value_table.specs.Meaning.{value_in, list_part};
ghost use Rattle.value_table.specs.Heap.{heap_values, IsHeap, Gains, SharesBacking};

use crate::cell::Cell;
use crate::content::Content;
use crate::heap::{Heap, room_for_cell};
use crate::lengths::{joined_length, pushed_length};
use shared_lists::small;
use std::alloc::AllocError;

impl Heap {
    /// Adds an empty list.
    pub(crate) fn new_list(&mut self) -> Result<u64, AllocError>
        requires { IsHeap self.old }
        ensures { Gains self.old (Some (list no_items)) result self.new }
    {
        let cells = room_for_cell(&mut self.cells, &mut self.same)?;
        let backing = self.backings.add_empty()?;
        Ok(cells.append(Cell {
            content: Content::List(backing, 0),
            depth: 1,
            json: 2,
        }))
    }

    /// The list at `l` with the value at `x` appended.
    pub(crate) fn push(&mut self, l: u64, x: u64) -> Result<u64, AllocError>
        requires heap { IsHeap self.old }
        requires list { l < length (heap_values self.old) }
        requires item { x < length (heap_values self.old) }
        requires kinds { IsSome (push_of (value_in (heap_values self.old) l) (value_in (heap_values self.old) x)) }
        ensures gained { Gains self.old (push_of (value_in (heap_values self.old) l) (value_in (heap_values self.old) x)) result self.new }
        ensures shared { SharesBacking self.old l result self.new }
    {
        let list = self.cell(l);
        let item = self.cell(x);
        let Content::List(backing, count) = list.content else {
            unreachable!();
        };
        let depth = list.depth.max(item.depth.saturating_add(1));
        let json = pushed_length(list.json, count as u64, item.json);
        let longer = small(count as usize + 1)?;
        let place = small(x as usize)?;
        let cells = room_for_cell(&mut self.cells, &mut self.same)?;
        let pushed = self.backings.push_item(backing, count, place)?;
        let cell = Cell {
            content: Content::List(pushed, longer),
            depth,
            json,
        };
        Ok(cells.append(cell))
    }

    /// The items of the list at `a` followed by those of the list at `b`.
    pub(crate) fn join_lists(&mut self, a: u64, b: u64) -> Result<u64, AllocError>
        requires heap { IsHeap self.old }
        requires first { a < length (heap_values self.old) }
        requires second { b < length (heap_values self.old) }
        requires lists { IsSome (list_part (value_in (heap_values self.old) a)) × IsSome (list_part (value_in (heap_values self.old) b)) }
        ensures { Gains self.old (join_of (value_in (heap_values self.old) a) (value_in (heap_values self.old) b)) result self.new }
    {
        let first = self.cell(a);
        let second = self.cell(b);
        let Content::List(backing, count) = first.content else {
            unreachable!();
        };
        let Content::List(other, more) = second.content else {
            unreachable!();
        };
        let json = joined_length(first.json, count as u64, second.json, more as u64);
        let both = small(count as usize + more as usize)?;
        let cells = room_for_cell(&mut self.cells, &mut self.same)?;
        let joined = self.backings.join_items((backing, count), (other, more))?;
        Ok(cells.append(Cell {
            content: Content::List(joined, both),
            depth: first.depth.max(second.depth),
            json,
        }))
    }
}
