//! A sequence of items that copies share in chunks.

ghost use Rattle.std.specs.Prelude.{◌≡◌, ◌<◌, ◌+◌, ◌^◌, [], ◌∷◌, ◌++◌, length, slice_get, Some, IfOk, OnOk, OnErr};
ghost use Rattle.std.specs.Borrow.{sem};
ghost use Rattle.value_table.specs.Lending.{LendsChunks};

use crate::chunks::{Chunks, SPARE};
use std::alloc::{AllocError, Global};
use std::marker::Model;

/// A sequence of items. A copy shares all full chunks.
#[derive(Drop)]
pub struct Sequence<T: Copy> {
    chunks: Chunks<T>,
}

impl<T: Copy> Model for Sequence<T> {
    ghost use Rattle.std.specs.Prelude.{List};

    ghost Value = { List T };

    ghost view = { λ s. s.chunks.0 };
}

impl<T: Copy> Sequence<T> {
    pub(crate) fn new(alloc: Global) -> Result<Sequence<T>, AllocError>
        ensures { IfOk result (λ s. s ≡ []) }
    {
        let chunks = Chunks::new(alloc)?;
        Ok(Sequence { chunks })
    }

    /// The allocator.
    pub(crate) fn alloc(&self) -> Global {
        self.chunks.alloc()
    }

    pub(crate) fn len(&self) -> usize
        ensures count { result ≡ length self.now }
        ensures short { result < 2 ^ 63 + 2 ^ 58 }
    {
        self.chunks.len()
    }

    /// The item at a place.
    #[inline(always)]
    pub(crate) fn at(&self, place: usize) -> T
        requires { place < length self.now }
        ensures value { slice_get self.now place ≡ Some result }
        ensures short { place < 2 ^ 63 + 2 ^ 58 }
    {
        self.chunks.at(place)
    }

    /// The item at a place, if there is one.
    pub(crate) fn get(&self, place: usize) -> Option<T>
        ensures { result ≡ slice_get self.now place }
    {
        if place < self.len() {
            return Some(self.at(place));
        }
        None
    }

    /// The chunks, with capacity for one more item.
    pub(crate) fn room(&mut self) -> Result<&mut Chunks<T>, AllocError>
        ensures* lent { sem 𝓛 (LendsChunks T.row self.entry result) }
        ensures items { IfOk result (λ c. c.now.0 ≡ self.old) }
        ensures room { IfOk result (λ c. 0 < c.now.1) }
    {
        self.chunks.reserve()?;
        Ok(&mut self.chunks)
    }

    /// A copy with capacity for these further items, at most for 256.
    pub(crate) fn copy(&self, more: usize) -> Result<Sequence<T>, AllocError>
        ensures { IfOk result (λ s. s ≡ self.now) }
    {
        let chunks = self.chunks.copy(more)?;
        Ok(Sequence { chunks })
    }

    /// Reserves capacity for these further items, at most for 256.
    pub(crate) fn reserve(&mut self, more: usize) -> Result<(), AllocError>
        ensures { self.new ≡ self.old }
    {
        self.chunks.reserve_more(more)
    }

    pub fn push(&mut self, item: T) -> Result<(), AllocError>
        ensures ok { OnOk result (self.new ≡ self.old ++ item ∷ []) }
        ensures err { OnErr result (self.new ≡ self.old) }
    {
        let chunks = self.room()?;
        chunks.push_reserved(item);
        Ok(())
    }
}

impl<T: Copy> Clone for Sequence<T> {
    ghost is_clone = { λ s copy. copy ≡ s };

    fn clone(&self) -> Result<Sequence<T>, AllocError> {
        self.copy(SPARE)
    }
}
