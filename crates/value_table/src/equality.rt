//! Deep equality that remembers equal lists and maps.

ghost use Rattle.std.specs.Prelude.{◌≡◌, ◌<◌, ◌≤◌, length, true, Some, IsSome};
ghost use Rattle.value_store.specs.Equality.{equal};
ghost use Rattle.value_store.specs.Lookup.{has_item, member};
ghost use Rattle.value_store.specs.Calls.{entries_part};
ghost use Rattle.value_table.specs.Meaning.{value_in, items_at, refs_at};
ghost use Rattle.value_table.specs.Equality.{AreOneClass, ClassesStay};
ghost use Rattle.value_table.specs.Heaps.{IsRange};
ghost use Rattle.value_table.specs.Heap.{heap_values, IsHeap};

mod alike;
mod among;
mod by_cells;
mod classes;
mod walk;

use crate::content::Content;
use crate::equality::among::is_among;
use crate::equality::by_cells::equal_by_cells;
use crate::equality::walk::first;
pub(crate) use crate::equality::walk::parts_of;
use crate::heap::Heap;
use value_backings::text;

// No comparison takes memory: capacity for the words of all cells is reserved.
impl Heap {
    /// Whether the values of two cells are deeply equal. Takes no memory.
    pub(crate) fn equal(&mut self, a: u64, b: u64) -> bool
        requires heap { IsHeap self.old }
        requires left { a < length (heap_values self.old) }
        requires right { b < length (heap_values self.old) }
        ensures heap { IsHeap self.new }
        ensures cells { self.new.cells ≡ self.old.cells }
        ensures backings { self.new.backings ≡ self.old.backings }
        ensures values { heap_values self.new ≡ heap_values self.old }
        ensures answer { result ≡ equal (value_in (heap_values self.old) a) (value_in (heap_values self.old) b) }
    {
        let left = self.cell(a);
        let right = self.cell(b);
        match equal_by_cells(&self.backings, left, right) {
            Some(answer) => answer,
            None => self.compare(a, b),
        }
    }

    // Whether the values of two cells are deeply equal. Equal values are put into one class, so that they are not
    // compared again.
    #[tactic(auto, using(crate::proofs::Comparisons::contents_of, crate::proofs::Growth::count_values, crate::proofs::Comparisons::meanings_of, std::proofs::lemmas::List::with_items_is))]
    fn compare(&mut self, a: u64, b: u64) -> bool
        requires heap { IsHeap self.old }
        requires left { a < length (heap_values self.old) }
        requires right { b < length (heap_values self.old) }
        ensures heap { IsHeap self.new }
        ensures cells { self.new.cells ≡ self.old.cells }
        ensures backings { self.new.backings ≡ self.old.backings }
        ensures values { heap_values self.new ≡ heap_values self.old }
        ensures answer { result ≡ equal (value_in (heap_values self.old) a) (value_in (heap_values self.old) b) }
        ensures stay { ClassesStay self.old.same.items self.new.same.items }
        ensures one { result ≡ true → AreOneClass self.new.same.items a b }
    {
        self.complete_words();
        walk::equal(&self.cells, &self.backings, &mut self.same, a, b)
    }

    /// Whether the list at `c` has an item equal to the value at `x`, or the map at `c` has the
    /// text at `x` as a key. Takes no memory.
    pub(crate) fn member(&mut self, x: u64, c: u64) -> bool
        requires heap { IsHeap self.old }
        requires value { x < length (heap_values self.old) }
        requires container { c < length (heap_values self.old) }
        requires kinds { IsSome (member (value_in (heap_values self.old) x) (value_in (heap_values self.old) c)) }
        ensures heap { IsHeap self.new }
        ensures values { heap_values self.new ≡ heap_values self.old }
        ensures answer { Some result ≡ member (value_in (heap_values self.old) x) (value_in (heap_values self.old) c) }
    {
        match self.cell(c).content {
            Content::List(backing, count) => self.has_item(x, backing as u64, count as u64),
            _ => self.has_key(c, x),
        }
    }

    // Whether one of the first items of a backing equals the value at `x`.
    #[tactic(auto, using(crate::proofs::Comparisons::contents_of, crate::proofs::Growth::count_values, crate::proofs::Comparisons::known_of, std::proofs::lemmas::List::with_items_is))]
    fn has_item(&mut self, x: u64, backing: u64, count: u64) -> bool
        requires heap { IsHeap self.old }
        requires value { x < length (heap_values self.old) }
        requires items { IsRange self.old.backings.lists (length (heap_values self.old)) backing count }
        ensures heap { IsHeap self.new }
        ensures values { heap_values self.new ≡ heap_values self.old }
        ensures answer { result ≡ has_item (value_in (heap_values self.old) x) (items_at (heap_values self.old) (refs_at self.old.backings.lists backing count)) }
    {
        self.prepare(x);
        let items = first(&self.backings, backing, count);
        is_among(&self.cells, &self.backings, &mut self.same, x, items)
    }

    // Gives the cells their words if the value at `x` has parts.
    fn prepare(&mut self, x: u64)
        requires heap { IsHeap self.old }
        requires value { x < length (heap_values self.old) }
        ensures heap { IsHeap self.new }
        ensures cells { self.new.cells ≡ self.old.cells }
        ensures backings { self.new.backings ≡ self.old.backings }
    {
        if parts_of(&self.backings, self.cell(x).content).is_empty() {
            return;
        }
        self.complete_words();
    }

    // Whether the map at `map` has the text at `x` as a key.
    fn has_key(&self, map: u64, x: u64) -> bool
        requires heap { IsHeap self.now }
        requires inside { map < length (heap_values self.now) }
        requires key { x < length (heap_values self.now) }
        requires kinds { IsSome (member (value_in (heap_values self.now) x) (value_in (heap_values self.now) map)) }
        requires map { IsSome (entries_part (value_in (heap_values self.now) map)) }
        ensures { Some result ≡ member (value_in (heap_values self.now) x) (value_in (heap_values self.now) map) }
    {
        let Content::Text(part) = self.cell(x).content else {
            return false;
        };
        self.find(map, text(self.backings.bytes.items(), part))
            .is_some()
    }

    // Gives each cell without a word its own place as its word.
    fn complete_words(&mut self)
        requires { IsHeap self.old }
        ensures heap { IsHeap self.new }
        ensures cells { self.new.cells ≡ self.old.cells }
        ensures backings { self.new.backings ≡ self.old.backings }
        ensures words { length self.old.cells ≤ length self.new.same.items }
        ensures stay { ClassesStay self.old.same.items self.new.same.items }
    {
        for place in self.same.len()..self.cells.len() {
            let Ok(()) = self.same.push(place as u64) else {
                unreachable!();
            };
        }
    }
}
