//! Items in chunks that copies share.

ghost use Rattle.std.specs.Prelude.{◌≡◌, ◌<◌, ◌+◌, ◌^◌, [], ◌∷◌, ◌++◌, length, vec_len, vec_capacity, slice_get, Some, IfOk, OnOk, OnErr};
ghost use Rattle.value_table.specs.Chunks.{joined, AreChunks};

use shared_lists::Backing;
use std::alloc::{AllocError, Global};
use std::marker::Model;
use std::rc::Rc;

/// The number of items in a chunk.
const CHUNK: usize = 256;
/// The largest number of full chunks; with it a count of items cannot overflow. Further items stay
/// in one vector, which has its own limit.
const MOST: usize = 1 << 50;

/// The number of items for which a copy has capacity beyond its own.
pub(crate) const SPARE: usize = 8;

/// Items, with reserved capacity.
#[derive(Drop)]
pub(crate) struct Chunks<T: Copy> {
    /// Full chunks of 256 items, shared by copies. They never change.
    full: Rc<Vec<Backing<T>>>,
    /// The items after them.
    last: Vec<T>,
}

impl<T: Copy> Model for Chunks<T> {
    ghost use Rattle.std.specs.Prelude.{List, ℕ, ◌++◌, ◌-◌, vec_len, vec_capacity};
    ghost use Rattle.value_table.specs.Chunks.{joined, AreChunks};

    ghost Value = { List T × ℕ };

    ghost view = { λ c. (joined c.full.value.items ++ c.last.items, vec_capacity c.last - vec_len c.last) };

    ghost invariant = { λ c. AreChunks c.full.value.items };
}

impl<T: Copy> Chunks<T> {
    pub(crate) fn new(alloc: Global) -> Result<Chunks<T>, AllocError>
        ensures { IfOk result (λ c. c.0 ≡ []) }
    {
        let full = Rc::new(alloc, Vec::new(alloc)).ok().ok_or(AllocError)?;
        Ok(Chunks {
            full,
            last: Vec::new(alloc),
        })
    }

    pub(crate) fn alloc(&self) -> Global {
        *self.full.allocator()
    }

    pub(crate) fn len(&self) -> usize
        ensures count { result ≡ length self.now.0 }
        ensures short { result < 2 ^ 63 + 2 ^ 58 }
    {
        count(&self.full[..], &self.last[..])
    }

    #[inline(always)]
    pub(crate) fn at(&self, place: usize) -> T
        requires { place < length self.now.0 }
        ensures value { slice_get self.now.0 place ≡ Some result }
        ensures short { place < 2 ^ 63 + 2 ^ 58 }
    {
        item(&self.full[..], &self.last[..], place)
    }

    /// A copy that shares the full chunks, with capacity for these further items, at most for those
    /// of a chunk.
    pub(crate) fn copy(&self, more: usize) -> Result<Chunks<T>, AllocError>
        ensures { IfOk result (λ c. c.0 ≡ self.now.0) }
    {
        let full = self.full.clone()?;
        let capacity = self.last.len().saturating_add(more.min(CHUNK));
        let mut last = Vec::with_capacity(self.alloc(), capacity)?;
        last.extend_from_slice(&self.last)?;
        Ok(Chunks { full, last })
    }

    /// Reserves capacity for one more item.
    pub(crate) fn reserve(&mut self) -> Result<(), AllocError>
        ensures items { self.new.0 ≡ self.old.0 }
        ensures room { OnOk result (0 < self.new.1) }
    {
        if self.last.len() == CHUNK && self.full.len() < MOST {
            close(&mut self.full, &mut self.last)?;
        }
        reserve_one(&mut self.last)
    }

    /// Reserves capacity for these further items, at most for those of a chunk.
    pub(crate) fn reserve_more(&mut self, more: usize) -> Result<(), AllocError>
        ensures { self.new.0 ≡ self.old.0 }
    {
        self.last.reserve(more.min(CHUNK))
    }

    /// Appends an item. Needs reserved capacity.
    pub(crate) fn push_reserved(&mut self, item: T)
        requires { 0 < self.old.1 }
        ensures items { self.new.0 ≡ self.old.0 ++ item ∷ [] }
    {
        self.last.push_reserved(item);
    }

    /// Appends an item and returns its place. Needs reserved capacity.
    pub(crate) fn append(&mut self, item: T) -> u64
        requires { 0 < self.old.1 }
        ensures items { self.new.0 ≡ self.old.0 ++ item ∷ [] }
        ensures place { result ≡ length self.old.0 }
        ensures short { result < 2 ^ 63 + 2 ^ 58 }
    {
        let place = self.len() as u64;
        self.last.push_reserved(item);
        place
    }
}

// Capacity for one more item. Mostly there is some.
#[inline(always)]
fn reserve_one<T>(last: &mut Vec<T>) -> Result<(), AllocError>
    ensures items { last.new.items ≡ last.old.items }
    ensures room { OnOk result (vec_len last.new < vec_capacity last.new) }
{
    if last.len() < last.capacity() {
        return Ok(());
    }
    last.reserve(1)
}

// Moves the last items, which fill a chunk, to the full chunks.
fn close<T: Copy>(full: &mut Rc<Vec<Backing<T>>>, last: &mut Vec<T>) -> Result<(), AllocError>
    requires whole { length last.old.items ≡ 256 }
    requires few { length full.old.value.items < 1125899906842624 }
    ensures items { joined full.new.value.items ++ last.new.items ≡ joined full.old.value.items ++ last.old.items }
    ensures chunks { AreChunks full.old.value.items → AreChunks full.new.value.items }
    ensures ok { OnOk result (last.new.items ≡ []) }
{
    let chunk = Backing::of(*full.allocator(), last)?;
    add(full, chunk)?;
    last.clear();
    Ok(())
}

fn add<T: Copy>(full: &mut Rc<Vec<Backing<T>>>, chunk: Backing<T>) -> Result<(), AllocError>
    ensures ok { OnOk result (full.new.value.items ≡ full.old.value.items ++ chunk ∷ []) }
    ensures err { OnErr result (full.new.value.items ≡ full.old.value.items) }
{
    let chunks = Rc::make_mut(full)?;
    chunks.push(chunk)?;
    Ok(())
}

#[tactic(auto, using(crate::proofs::Chunked::chunk_lengths))]
fn count<T: Copy>(full: &[Backing<T>], last: &[T]) -> usize
    requires chunks { AreChunks full.now }
    requires short { length last.now < 2 ^ 63 }
    ensures count { result ≡ length (joined full.now ++ last.now) }
    ensures short { result < 2 ^ 63 + 2 ^ 58 }
{
    full.len() * CHUNK + last.len()
}

#[inline(always)]
#[tactic(auto, using(crate::proofs::Chunked::chunk_lengths))]
fn item<T: Copy>(full: &[Backing<T>], last: &[T], place: usize) -> T
    requires chunks { AreChunks full.now }
    requires short { length last.now < 2 ^ 63 }
    requires inside { place < length (joined full.now ++ last.now) }
    ensures value { slice_get (joined full.now ++ last.now) place ≡ Some result }
    ensures short { place < 2 ^ 63 + 2 ^ 58 }
{
    let chunk = place / CHUNK;
    if chunk < full.len() {
        let items = full[chunk].items();
        return items[place % CHUNK];
    }
    let behind = place - full.len() * CHUNK;
    last[behind]
}
