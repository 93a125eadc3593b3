//! Keys of maps.

ghost use Rattle.std.specs.Prelude.{◌≡◌, ◌<◌, length, Some, option_map, IsSome};
ghost use Rattle.value_store.specs.Keys.{Ascend};
ghost use Rattle.value_store.specs.Calls.{entries_part};
ghost use Rattle.value_store.specs.Lookup.{place_of_key};
ghost use Rattle.value_table.specs.Meaning.{value_in};
ghost use Rattle.value_table.specs.Heap.{heap_values, IsHeap};
ghost use Rattle.value_table.specs.Heaps.{AreTexts};
ghost use Rattle.value_table.specs.Heads.{texts_of};
ghost use Rattle.value_table.specs.Search.{place_among};

use crate::content::Content;
use crate::heap::Heap;
use crate::search::search;
use value_backings::{Part, keys};

impl Heap {
    /// The place of a key in a map, if the map has it (binary search).
    pub(crate) fn find(&self, map: u64, key: &[u8]) -> Option<u64>
        requires heap { IsHeap self.now }
        requires inside { map < length (heap_values self.now) }
        requires map { IsSome (entries_part (value_in (heap_values self.now) map)) }
        ensures { Some result ≡ option_map (place_of_key key.now) (entries_part (value_in (heap_values self.now) map)) }
    {
        match self.cell(map).content {
            Content::Map(first, _, count) => {
                let keys = keys(self.backings.keys.items(), first as u64, count as u64);
                place(self.backings.bytes.items(), keys, key)
            }
            _ => None,
        }
    }
}

fn place(bytes: &[u8], keys: &[Part], key: &[u8]) -> Option<u64>
    requires texts { AreTexts bytes.now keys.now }
    requires ordered { Ascend (texts_of bytes.now keys.now) }
    ensures { result ≡ place_among key.now (texts_of bytes.now keys.now) }
{
    match search(bytes, keys, key) {
        Ok(place) => Some(place as u64),
        Err(_) => None,
    }
}
