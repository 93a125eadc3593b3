//! Texts in a heap.

ghost use Rattle.std.specs.Prelude.{◌≡◌, ◌<◌, ◌++◌, List, length, Some, IsSome, IfOk};
ghost use Rattle.value_store.specs.Value.{Value, text};
ghost use Rattle.value_store.specs.Calls.{join_of};
ghost use Rattle.value_table.specs.Meaning.{part_of, value_in};
ghost use Rattle.value_table.specs.Heaps.{ExtendsBackings, IsCell, IsText};
ghost use Rattle.value_table.specs.Heap.{heap_values, IsHeap, Gains};
ghost use Rattle.value_table.specs.declared.content.Content.TheVariants as cell;
ghost use Rattle.value_backings.specs.declared.backings.Backings.{Backings};

use crate::cell::Cell;
use crate::content::Content;
use crate::heap::{Heap, room_for_cell};
use std::alloc::AllocError;
use value_backings::Part;

impl Heap {
    /// Adds a text.
    pub fn add_text(&mut self, s: &str) -> Result<u64, AllocError>
        requires { IsHeap self.old }
        ensures { Gains self.old (Some (text s.now)) result self.new }
    {
        let cells = room_for_cell(&mut self.cells, &mut self.same)?;
        let part = self.backings.add_text(s.as_bytes())?;
        Ok(cells.append(text_cell(part)))
    }

    /// Appends the text of a key. It does not become a value.
    pub fn add_key(&mut self, key: &str) -> Result<Part, AllocError>
        requires { IsHeap self.old }
        ensures heap { IsHeap self.new }
        ensures values { heap_values self.new ≡ heap_values self.old }
        ensures grown { ExtendsBackings self.old.backings self.new.backings }
        ensures part { IfOk result (λ p. IsText self.new.backings.bytes p × (part_of self.new.backings.bytes p ≡ key.now)) }
    {
        self.backings.add_text(key.as_bytes())
    }

    /// Adds the concatenation of two texts.
    pub(crate) fn join_texts(&mut self, first: Part, second: Part) -> Result<u64, AllocError>
        requires heap { IsHeap self.old }
        requires first { IsText self.old.backings.bytes first }
        requires second { IsText self.old.backings.bytes second }
        ensures { Gains self.old (Some (text (part_of self.old.backings.bytes first ++ part_of self.old.backings.bytes second))) result self.new }
    {
        let cells = room_for_cell(&mut self.cells, &mut self.same)?;
        let part = self.backings.join_texts(first, second)?;
        Ok(cells.append(text_cell(part)))
    }

    /// The text or list at `a` followed by the one at `b`.
    pub(crate) fn join(&mut self, a: u64, b: u64) -> Result<u64, AllocError>
        requires heap { IsHeap self.old }
        requires first { a < length (heap_values self.old) }
        requires second { b < length (heap_values self.old) }
        requires kinds { IsSome (join_of (value_in (heap_values self.old) a) (value_in (heap_values self.old) b)) }
        ensures { Gains self.old (join_of (value_in (heap_values self.old) a) (value_in (heap_values self.old) b)) result self.new }
    {
        let first = self.cell(a);
        let second = self.cell(b);
        let Content::Text(text) = first.content else {
            return self.join_lists(a, b);
        };
        let Content::Text(more) = second.content else {
            unreachable!();
        };
        self.join_texts(text, more)
    }

    /// Adds a text whose bytes are already stored.
    pub(crate) fn add_part(&mut self, part: Part) -> Result<u64, AllocError>
        requires heap { IsHeap self.old }
        requires part { IsText self.old.backings.bytes part }
        ensures { Gains self.old (Some (text (part_of self.old.backings.bytes part))) result self.new }
    {
        self.add(text_cell(part))
    }
}

// The cell of a text.
fn text_cell(part: Part) -> Cell
    ensures cell { (bs : Backings) (vs : List Value) → IsText bs.bytes part → IsCell bs vs result }
    ensures content { result.content ≡ cell.Text part }
{
    Cell {
        content: Content::Text(part),
        depth: 0,
        json: part.json as u64,
    }
}
