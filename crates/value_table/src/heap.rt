//! Values as cells, each with a place.

ghost use Rattle.std.specs.Prelude.{◌≡◌, ◌<◌, ◌≤◌, ◌+◌, ◌^◌, [], length, vec_capacity, slice_get, Some, IfOk, OnOk};
ghost use Rattle.std.specs.Borrow.{sem};
ghost use Rattle.value_store.specs.Value.{null, boolean, int};
ghost use Rattle.value_table.specs.Meaning.{meaning};
ghost use Rattle.value_table.specs.Heaps.{IsCell, CellFound};
ghost use Rattle.value_table.specs.Lending.{LendsCells};

use crate::cell::Cell;
use crate::chunks::{Chunks, SPARE};
use crate::content::Content;
use crate::lengths::int_length;
use crate::sequence::Sequence;
use std::alloc::{AllocError, Global};
use value_backings::Backings;

/// Values, each identified by the place of its cell. A value never changes.
#[derive(Drop)]
pub struct Heap {
    pub(crate) cells: Sequence<Cell>,
    pub(crate) backings: Backings,
    /// For each cell, the place of an equal value, as far as is known: itself or an earlier cell. A
    /// cell without a word refers to itself. Capacity for the words of all cells is reserved.
    pub(crate) same: Vec<u64>,
}

impl Heap {
    ghost use Rattle.value_table.specs.Heap.{heap_values, IsHeap, Gains};

    /// A heap without values.
    pub fn new(alloc: Global) -> Result<Heap, AllocError>
        ensures { IfOk result (λ h. IsHeap h × (heap_values h ≡ [])) }
    {
        Ok(Heap {
            cells: Sequence::new(alloc)?,
            backings: Backings::new(alloc)?,
            same: Vec::new(alloc),
        })
    }

    /// A copy that shares everything unchanged. Equal values have to be found again.
    pub fn copy(&self) -> Result<Heap, AllocError>
        requires { IsHeap self.now }
        ensures { IfOk result (λ h. IsHeap h × (heap_values h ≡ heap_values self.now)) }
    {
        self.copy_with(SPARE)
    }

    /// A copy as `copy` makes it, with capacity for the cells of these further values.
    pub(crate) fn copy_with(&self, more: usize) -> Result<Heap, AllocError>
        requires { IsHeap self.now }
        ensures { IfOk result (λ h. IsHeap h × (heap_values h ≡ heap_values self.now)) }
    {
        let words = self.cells.len().saturating_add(more);
        Ok(Heap {
            cells: self.cells.copy(more)?,
            backings: self.backings.copy()?,
            same: Vec::with_capacity(self.cells.alloc(), words)?,
        })
    }

    /// The allocator.
    pub fn alloc(&self) -> Global {
        self.cells.alloc()
    }

    /// The cell at a place.
    #[tactic(auto, using(crate::proofs::Growth::count_values))]
    pub fn cell(&self, place: u64) -> Cell
        requires heap { IsHeap self.now }
        requires inside { place < length (heap_values self.now) }
        ensures found { CellFound self.now.backings (heap_values self.now) place result }
        ensures is { slice_get self.now.cells place ≡ Some result }
        ensures short { place < 2 ^ 63 + 2 ^ 58 }
    {
        self.cells.at(place as usize)
    }

    /// Adds a cell.
    pub(crate) fn add(&mut self, cell: Cell) -> Result<u64, AllocError>
        requires heap { IsHeap self.old }
        requires cell { IsCell self.old.backings (heap_values self.old) cell }
        ensures gained { Gains self.old (Some (meaning self.old.backings (heap_values self.old) cell.content)) result self.new }
        ensures backings { self.new.backings ≡ self.old.backings }
    {
        let cells = room_for_cell(&mut self.cells, &mut self.same)?;
        Ok(cells.append(cell))
    }

    /// Adds a null.
    pub fn add_null(&mut self) -> Result<u64, AllocError>
        requires { IsHeap self.old }
        ensures { Gains self.old (Some null) result self.new }
    {
        self.add(Cell {
            content: Content::Null,
            depth: 0,
            json: 4,
        })
    }

    /// Adds a bool.
    pub fn add_bool(&mut self, truth: bool) -> Result<u64, AllocError>
        requires { IsHeap self.old }
        ensures { Gains self.old (Some (boolean truth)) result self.new }
    {
        self.add(Cell {
            content: Content::Bool(truth),
            depth: 0,
            json: if truth { 4 } else { 5 },
        })
    }

    /// Adds an int.
    pub fn add_int(&mut self, n: i64) -> Result<u64, AllocError>
        requires { IsHeap self.old }
        ensures { Gains self.old (Some (int n)) result self.new }
    {
        self.add(Cell {
            content: Content::Int(n),
            depth: 0,
            json: int_length(n),
        })
    }
}

/// The cells, with capacity for one more and for its word.
pub(crate) fn room_for_cell<'a>(
    cells: &'a mut Sequence<Cell>,
    words: &mut Vec<u64>,
) -> Result<&'a mut Chunks<Cell>, AllocError>
    ensures* lent { sem 𝓛 (LendsCells cells.entry result) }
    ensures cells { IfOk result (λ c. c.now.0 ≡ cells.old) }
    ensures room { IfOk result (λ c. 0 < c.now.1) }
    ensures words { words.new.items ≡ words.old.items }
    ensures longer { vec_capacity words.old ≤ vec_capacity words.new }
    ensures word { IfOk result (λ _. length cells.old + 1 ≤ vec_capacity words.new) }
{
    let count = cells.len() + 1;
    reserve_words(words, count)?;
    cells.room()
}

// Capacity for this number of words. Mostly there is enough.
#[inline(always)]
fn reserve_words(words: &mut Vec<u64>, count: usize) -> Result<(), AllocError>
    ensures words { words.new.items ≡ words.old.items }
    ensures longer { vec_capacity words.old ≤ vec_capacity words.new }
    ensures enough { OnOk result (count ≤ vec_capacity words.new) }
{
    if count <= words.capacity() {
        return Ok(());
    }
    words.reserve(count.saturating_sub(words.len()))
}
