//! Capacity for the values of a document.

ghost use Rattle.std.specs.Prelude.{◌≡◌, IfOk, OnOk};
ghost use Rattle.value_table.specs.Heap.{heap_values, IsHeap};

use crate::heap::Heap;
use std::alloc::AllocError;

/// The largest length of a document in bytes for which capacity is reserved.
const RESERVED: usize = 4096;

/// About as many bytes of a document as a value takes.
const BYTES_OF_A_VALUE: usize = 12;

impl Heap {
    /// Reserves capacity for the values of a document of this length, so that those of a short one are
    /// not moved as they are added.
    pub fn reserve_for(&mut self, length: usize) -> Result<(), AllocError>
        requires { IsHeap self.old }
        ensures heap { OnOk result (IsHeap self.new) }
        ensures values { OnOk result (heap_values self.new ≡ heap_values self.old) }
    {
        let length = length.min(RESERVED);
        let count = length / BYTES_OF_A_VALUE;
        let words = self.cells.len().saturating_add(count);
        self.same.reserve(words)?;
        self.cells.reserve(count)?;
        self.backings.reserve(length, count)
    }

    /// A copy that shares everything unchanged, with capacity for the values of a document of this
    /// length.
    pub fn copy_for(&self, length: usize) -> Result<Heap, AllocError>
        requires { IsHeap self.now }
        ensures { IfOk result (λ h. IsHeap h × (heap_values h ≡ heap_values self.now)) }
    {
        let length = length.min(RESERVED);
        let count = length / BYTES_OF_A_VALUE;
        let mut heap = self.copy_with(count)?;
        heap.backings.reserve(length, count)?;
        Ok(heap)
    }
}
