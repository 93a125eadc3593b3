//! The order of values.

ghost use Rattle.std.specs.Prelude.{◌≡◌, ◌<◌, length, Some, IsSome};
ghost use Rattle.value_store.specs.Order.{less, text_less};
ghost use Rattle.value_table.specs.Meaning.{value_in};
ghost use Rattle.value_table.specs.Heap.{heap_values, IsHeap};

use crate::content::Content;
use crate::heap::Heap;
use text_kernels::first_difference;
use value_backings::text;

impl Heap {
    /// Whether the first of two ints, texts or bools is less than the second.
    pub(crate) fn less(&self, a: u64, b: u64) -> bool
        requires heap { IsHeap self.now }
        requires left { a < length (heap_values self.now) }
        requires right { b < length (heap_values self.now) }
        requires kinds { IsSome (less (value_in (heap_values self.now) a) (value_in (heap_values self.now) b)) }
        ensures { Some result ≡ less (value_in (heap_values self.now) a) (value_in (heap_values self.now) b) }
    {
        let bytes = self.backings.bytes.items();
        match (self.cell(a).content, self.cell(b).content) {
            (Content::Bool(a), Content::Bool(b)) => !a && b,
            (Content::Int(a), Content::Int(b)) => a < b,
            (Content::Text(a), Content::Text(b)) => is_below(text(bytes, a), text(bytes, b)),
            _ => false,
        }
    }
}

// The first differing byte decides; a text that is a proper prefix of the other is less.
#[tactic(auto, using(value_store::proofs::Orders::differs))]
fn is_below(left: &[u8], right: &[u8]) -> bool
    ensures { result ≡ text_less left.now right.now }
{
    let place = first_difference(left, right);
    match (left.get(place), right.get(place)) {
        (Some(a), Some(b)) => a < b,
        (None, Some(_)) => true,
        (_, None) => false,
    }
}
