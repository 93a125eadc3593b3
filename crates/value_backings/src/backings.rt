//! The storage of texts, lists and maps.

ghost use Rattle.std.specs.Prelude.{◌≡◌, ◌≤◌, ◌<◌, ◌+◌, ◌∷◌, ◌++◌, [], length, slice_index_or, IfOk, OnErr};
ghost use Rattle.std.specs.Str.{IsUtf8};

use crate::part::Part;
use crate::quoting::quoted_length;
use crate::room::repeat;
use shared_lists::{Backing, Lists, small};
use std::alloc::{AllocError, Global};

/// The storage that the cells of texts, lists and maps refer to.
#[derive(Drop)]
pub struct Backings {
    /// The bytes of all texts.
    pub bytes: Backing<u8>,
    /// The keys of all maps. The keys of one map are adjacent.
    pub keys: Backing<Part>,
    /// The items of lists and the values of maps, as places of cells.
    pub lists: Lists,
}

// No call changes the parts that cells refer to. If an allocation fails, nothing is changed: the
// capacity for all changes is reserved before the first.
impl Backings {
    ghost use Rattle.value_backings.specs.Ranges.{part_of, refs_at};
    ghost use Rattle.value_backings.specs.Stored.{IsText, ExtendsBackings, HoldsItems};

    pub fn new(alloc: Global) -> Result<Backings, AllocError> {
        Ok(Backings {
            bytes: Backing::new(alloc)?,
            keys: Backing::new(alloc)?,
            lists: Lists::new(alloc)?,
        })
    }

    /// A copy that shares everything.
    pub fn copy(&self) -> Result<Backings, AllocError>
        ensures { IfOk result (λ b. b ≡ self.now) }
    {
        Ok(Backings {
            bytes: self.bytes.clone()?,
            keys: self.keys.clone()?,
            lists: self.lists.clone()?,
        })
    }

    /// Reserves capacity for this number of bytes of texts, and for these keys and items.
    pub fn reserve(&mut self, bytes: usize, count: usize) -> Result<(), AllocError>
        ensures { self.new ≡ self.old }
    {
        let _bytes = self.bytes.room(bytes)?;
        let _keys = self.keys.room(count)?;
        self.lists.reserve(count / 4, count)
    }

    /// Appends a text.
    pub fn add_text(&mut self, text: &[u8]) -> Result<Part, AllocError>
        requires { IsUtf8 text.now }
        ensures grown { ExtendsBackings self.old self.new }
        ensures part { IfOk result (λ p. IsText self.new.bytes p × (part_of self.new.bytes p ≡ text.now)) }
        ensures kept { OnErr result (self.new ≡ self.old) }
    {
        let json = small(quoted_length(text) as usize)?;
        let (from, to) = range(self.bytes.len(), text.len())?;
        self.bytes.extend(text)?;
        Ok(Part { from, to, json })
    }

    /// Appends the concatenation of two texts.
    pub fn join_texts(&mut self, first: Part, second: Part) -> Result<Part, AllocError>
        requires first { IsText self.old.bytes first }
        requires second { IsText self.old.bytes second }
        ensures grown { ExtendsBackings self.old self.new }
        ensures part { IfOk result (λ p. IsText self.new.bytes p × (part_of self.new.bytes p ≡ part_of self.old.bytes first ++ part_of self.old.bytes second)) }
        ensures kept { OnErr result (self.new ≡ self.old) }
    {
        let json = small(first.json as usize + second.json as usize - 2)?;
        let more = (first.to - first.from) as usize + (second.to - second.from) as usize;
        let (from, to) = range(self.bytes.len(), more)?;
        let bytes = self.bytes.room(more)?;
        repeat(bytes, first.from as usize, first.to as usize);
        repeat(bytes, second.from as usize, second.to as usize);
        Ok(Part { from, to, json })
    }

    /// Adds a backing with these items.
    pub(crate) fn add_items(&mut self, items: Backing<u32>) -> Result<u32, AllocError>
        ensures grown { ExtendsBackings self.old self.new }
        ensures items { IfOk result (λ b. HoldsItems self.new.lists b (length items) items) }
        ensures kept { OnErr result (self.new ≡ self.old) }
    {
        let place = small(self.lists.len())?;
        self.lists.push(items)?;
        Ok(place)
    }

    /// Adds a backing without items.
    pub fn add_empty(&mut self) -> Result<u32, AllocError>
        ensures grown { ExtendsBackings self.old self.new }
        ensures items { IfOk result (λ b. HoldsItems self.new.lists b 0 []) }
        ensures kept { OnErr result (self.new ≡ self.old) }
    {
        let place = small(self.lists.len())?;
        self.lists.add_empty()?;
        Ok(place)
    }

    /// Adds a backing with these items, stored in the pool.
    pub fn pool_items(&mut self, items: &[u32]) -> Result<u32, AllocError>
        ensures grown { ExtendsBackings self.old self.new }
        ensures items { IfOk result (λ b. HoldsItems self.new.lists b (length items.now) items.now) }
        ensures kept { OnErr result (self.new ≡ self.old) }
    {
        let place = small(self.lists.len())?;
        self.lists.add(items)?;
        Ok(place)
    }

    /// A backing with the first `count` items of another and then `item`. It is the same backing if
    /// that has no further items, else a new one.
    pub fn push_item(&mut self, backing: u32, count: u32, item: u32) -> Result<u32, AllocError>
        requires inside { backing < length self.old.lists }
        requires long { count ≤ length (slice_index_or self.old.lists backing []) }
        ensures grown { ExtendsBackings self.old self.new }
        ensures items { IfOk result (λ b. HoldsItems self.new.lists b (count + 1) (refs_at self.old.lists backing count ++ item ∷ [])) }
        ensures shared { count ≡ length (slice_index_or self.old.lists backing []) → IfOk result (λ b. (b ≡ backing) × (length self.new.lists ≡ length self.old.lists)) }
        ensures kept { OnErr result (self.new ≡ self.old) }
    {
        self.lists.push_after(backing, count, item)
    }

    /// A backing with the first items of one and then the first items of another. It is the first
    /// of them if that has no further items, else a new one.
    pub fn join_items(&mut self, first: (u32, u32), second: (u32, u32)) -> Result<u32, AllocError>
        requires first_inside { first.0 < length self.old.lists }
        requires first_long { first.1 ≤ length (slice_index_or self.old.lists first.0 []) }
        requires second_inside { second.0 < length self.old.lists }
        requires second_long { second.1 ≤ length (slice_index_or self.old.lists second.0 []) }
        ensures grown { ExtendsBackings self.old self.new }
        ensures items { IfOk result (λ b. HoldsItems self.new.lists b (first.1 + second.1) (refs_at self.old.lists first.0 first.1 ++ refs_at self.old.lists second.0 second.1)) }
        ensures kept { OnErr result (self.new ≡ self.old) }
    {
        let (backing, count) = first;
        let (other, more) = second;
        let others = self.lists.shared(other as u64)?;
        let others = &others.items()[..more as usize];
        let items = self.lists.items(backing as u64);
        if items.len() == count as usize {
            self.lists.push_items(backing as usize, others)?;
            return Ok(backing);
        }
        let both = Backing::joined(self.keys.alloc(), &items[..count as usize], others)?;
        self.add_items(both)
    }
}

// The bounds of `count` items that follow the first `from`.
fn range(from: usize, count: usize) -> Result<(u32, u32), AllocError>
    ensures from { IfOk result (λ r. r.0 ≡ from) }
    ensures to { IfOk result (λ r. r.1 ≡ from + count) }
{
    let to = from.checked_add(count).ok_or(AllocError)?;
    Ok((small(from)?, small(to)?))
}
