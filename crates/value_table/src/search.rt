//! Binary search among keys in byte order.

ghost use Rattle.value_store.specs.Keys.{Ascend};
ghost use Rattle.value_table.specs.Heaps.{AreTexts};
ghost use Rattle.value_table.specs.Heads.{texts_of};
ghost use Rattle.value_table.specs.Search.{SearchAnswer};

use std::cmp::Ordering;
use value_backings::{Part, text};

/// The place of a key among the texts of the parts, or the place where it belongs.
pub(crate) fn search(bytes: &[u8], keys: &[Part], key: &[u8]) -> Result<usize, usize>
    requires texts { AreTexts bytes.now keys.now }
    requires ordered { Ascend (texts_of bytes.now keys.now) }
    ensures { SearchAnswer (texts_of bytes.now keys.now) key.now result }
{
    let mut from = 0;
    let mut to = keys.len();
    while from < to {
        let middle = from + (to - from) / 2;
        match key.cmp(text(bytes, keys[middle])) {
            Ordering::Equal => return Ok(middle),
            Ordering::Less => to = middle,
            Ordering::Greater => from = middle + 1,
        }
    }
    Err(from)
}
