//! Views of a heap's values.

ghost use Rattle.std.specs.Prelude.{◌≡◌, ◌<◌, ◌^◌, length, slice_get, Some, IsSome, option_map};
ghost use Rattle.value_store.specs.Value.{value, text};
ghost use Rattle.value_store.specs.Lookup.{text_part};
ghost use Rattle.value_store.specs.Seen.{outcome_view, shape_view, seen_size};
ghost use Rattle.value_store.specs.Calls.{parts_of as value_parts};
ghost use Rattle.value_table.specs.Meaning.{part_of, value_in, key_in};
ghost use Rattle.value_table.specs.Heaps.{IsText, IsRange};
ghost use Rattle.value_table.specs.Heap.{heap_values, IsHeap};

use crate::content::Content;
use crate::equality::parts_of;
use crate::heap::Heap;
use std::str::from_utf8_unchecked;
use value_backings::{Part, keys, text};
use value_store::Shape;

impl Heap {
    /// The kind of a value, with its simple value or its number of parts.
    pub(crate) fn shape(&self, place: u64) -> Shape<'_>
        requires heap { IsHeap self.now }
        requires inside { place < length (heap_values self.now) }
        ensures shape { shape_view result ≡ outcome_view (value (value_in (heap_values self.now) place)) }
        ensures short { seen_size (shape_view result) < 2 ^ 63 }
    {
        match self.cell(place).content {
            Content::Null => Shape::Null,
            Content::Bool(truth) => Shape::Bool(truth),
            Content::Int(n) => Shape::Int(n),
            Content::Text(part) => Shape::Text(self.lend(part)),
            Content::List(backing, count) => Shape::List(self.count(backing as u64, count as u64)),
            Content::Map(_, backing, count) => {
                Shape::Map(self.count(backing as u64, count as u64))
            }
        }
    }

    /// The text at this place, if there is one.
    pub fn text(&self, place: u64) -> Option<&str>
        requires heap { IsHeap self.now }
        requires inside { place < length (heap_values self.now) }
        ensures { option_map (λ t. t.now) result ≡ text_part (value_in (heap_values self.now) place) }
    {
        match self.cell(place).content {
            Content::Text(part) => Some(self.lend(part)),
            _ => None,
        }
    }

    // The text of a part.
    fn lend(&self, part: Part) -> &str
        requires { IsText self.now.backings.bytes part }
        ensures text { result.now ≡ part_of self.now.backings.bytes part }
        ensures short { length result.now < 2 ^ 63 }
    {
        let bytes = text(self.backings.bytes.items(), part);
        // The bytes of each text are UTF-8.
        unsafe { from_utf8_unchecked(bytes) }
    }

    // `count`, taken as the length of a slice, which is below 2^63.
    fn count(&self, backing: u64, count: u64) -> u64
        requires { IsRange self.now.backings.lists (length self.now.cells) backing count }
        ensures count { result ≡ count }
        ensures short { result < 2 ^ 63 }
    {
        let items = self.backings.lists.items(backing);
        items[..count as usize].len() as u64
    }

    /// The place of the i-th item of a list, or of the value of a map's i-th entry.
    #[tactic(auto, using(crate::proofs::Looked::part_inside, crate::proofs::Looked::part_below, crate::proofs::Looked::part_value))]
    pub(crate) fn part(&self, place: u64, i: u64) -> u64
        requires heap { IsHeap self.now }
        requires inside { place < length (heap_values self.now) }
        requires part { IsSome (slice_get (value_parts (value_in (heap_values self.now) place)) i) }
        ensures inside { result < length (heap_values self.now) }
        ensures value { slice_get (value_parts (value_in (heap_values self.now) place)) i ≡ Some (value_in (heap_values self.now) result) }
    {
        let content = self.cell(place).content;
        parts_of(&self.backings, content)[i as usize] as u64
    }

    /// Where the i-th key of a map is stored.
    #[tactic(auto, using(crate::proofs::Looked::key_inside, crate::proofs::Looked::key_value))]
    pub(crate) fn key(&self, place: u64, i: u64) -> Part
        requires heap { IsHeap self.now }
        requires inside { place < length (heap_values self.now) }
        requires key { IsSome (key_in (value_in (heap_values self.now) place) i) }
        ensures text { IsText self.now.backings.bytes result }
        ensures value { key_in (value_in (heap_values self.now) place) i ≡ Some (part_of self.now.backings.bytes result) }
    {
        let all = self.backings.keys.items();
        match self.cell(place).content {
            Content::Map(first, _, count) => keys(all, first as u64, count as u64)[i as usize],
            _ => unreachable!(),
        }
    }
}
