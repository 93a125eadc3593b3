//! Keys and values of maps in backings.

ghost use Rattle.std.specs.Prelude.{◌≡◌, ◌≤◌, ◌<◌, ◌+◌, [], length, slice_index_or, IfOk, OnErr};
ghost use Rattle.value_backings.specs.Ranges.{refs_at, keys_at, with_one};
ghost use Rattle.value_backings.specs.Stored.{ExtendsBackings, HoldsItems, HoldsKeys};

use crate::backings::Backings;
use crate::borrowed::keys;
use crate::part::Part;
use shared_lists::{Backing, fill, small};
use std::alloc::AllocError;

impl Backings {
    /// Appends these keys, and adds a backing with these values, stored in the pool.
    pub fn add_entries(&mut self, keys: &[Part], values: &[u32]) -> Result<(u32, u32), AllocError>
        ensures grown { ExtendsBackings self.old self.new }
        ensures bytes { self.new.bytes ≡ self.old.bytes }
        ensures keys { IfOk result (λ r. HoldsKeys self.new.keys r.0 (length keys.now) keys.now) }
        ensures values { IfOk result (λ r. HoldsItems self.new.lists r.1 (length values.now) values.now) }
        ensures kept { OnErr result (self.new ≡ self.old) }
    {
        let row = small(self.keys.len())?;
        let room = self.keys.room(keys.len())?;
        let backing = small(self.lists.len())?;
        self.lists.add(values)?;
        fill(room, keys);
        Ok((row, backing))
    }

    /// The keys and the backing of a map with one more entry at this place. The keys are extended
    /// where they are if the new key comes last and no other keys follow, else they are copied to
    /// the end.
    pub fn put_entry(
        &mut self,
        map: (u32, u32, u32),
        place: usize,
        key: Part,
        item: u32,
    ) -> Result<(u32, u32), AllocError>
        requires row { map.0 + map.2 ≤ length self.old.keys }
        requires inside { map.1 < length self.old.lists }
        requires long { map.2 ≤ length (slice_index_or self.old.lists map.1 []) }
        requires place { place ≤ map.2 }
        ensures grown { ExtendsBackings self.old self.new }
        ensures bytes { self.new.bytes ≡ self.old.bytes }
        ensures keys { IfOk result (λ r. HoldsKeys self.new.keys r.0 (map.2 + 1) (with_one place key (keys_at self.old.keys map.0 map.2))) }
        ensures items { IfOk result (λ r. HoldsItems self.new.lists r.1 (map.2 + 1) (with_one place item (refs_at self.old.lists map.1 map.2))) }
        ensures kept { OnErr result (self.new ≡ self.old) }
    {
        let (row, backing, count) = map;
        let end = self.keys.len();
        if place == count as usize && row as usize + place == end {
            let keys = self.keys.room(1)?;
            let items = self.lists.put_item(backing, count, place, item)?;
            keys.push_reserved(key);
            return Ok((row, items));
        }
        let end = small(end)?;
        let here = keys(self.keys.items(), row as u64, count as u64);
        let more = Backing::with_item(self.keys.alloc(), here, place, key)?;
        let keys = self.keys.room(more.len())?;
        let items = self.lists.put_item(backing, count, place, item)?;
        fill(keys, more.items());
        Ok((end, items))
    }
}
