//! Whether the values of two cells are equal.

ghost use Rattle.std.specs.Prelude.{◌≡◌, ◌<◌, List, length, take};
ghost use Rattle.value_store.specs.Value.{Value};
ghost use Rattle.value_table.specs.Heaps.{AreSame};
ghost use Rattle.value_table.specs.Heads.{parts};
ghost use Rattle.value_table.specs.Meaning.{refs_at};
ghost use Rattle.value_table.specs.Equality.{AreContents, AreMeanings, Compares};

use crate::cell::Cell;
use crate::content::Content;
use crate::equality::alike::alike;
use crate::equality::classes::{representative, unite};
use crate::sequence::Sequence;
use value_backings::Backings;

/// Whether the values of two cells are equal. Each equal pair is remembered, so that values with
/// shared parts take about as many steps as they have cells. The recursion is as deep as the values.
#[tactic(auto, using(crate::proofs::Classes::both_found, crate::proofs::Walks::same_heads, crate::proofs::Walks::same_long))]
pub(crate) fn equal(
    cells: &Sequence<Cell>,
    backings: &Backings,
    same: &mut [u64],
    a: u64,
    b: u64,
) -> bool
    requires contents { AreContents backings.now cells.now }
    requires left { a < length cells.now }
    requires right { b < length cells.now }
    ensures { (vs : List Value) → AreMeanings backings.now vs cells.now → AreSame vs same.old → Compares vs (length cells.now) same.old same.new a b result }
{
    let x = representative(same, a);
    let y = representative(same, b);
    if x == y {
        return true;
    }
    let left = cells.at(x as usize);
    let right = cells.at(y as usize);
    if !alike(backings, left.content, right.content) {
        return false;
    }
    let xs = parts_of(backings, left.content);
    let ys = parts_of(backings, right.content);
    for i in 0..xs.len() {
        if !equal(cells, backings, same, xs[i] as u64, ys[i] as u64) {
            return false;
        }
    }
    unite(same, x, y);
    true
}

pub(crate) fn parts_of(backings: &Backings, content: Content) -> &[u32]
    ensures { result.now ≡ parts backings.now content }
{
    match content {
        Content::List(backing, count) => first(backings, backing as u64, count as u64),
        Content::Map(_, backing, count) => first(backings, backing as u64, count as u64),
        _ => &[],
    }
}

/// The first items of a backing.
pub(crate) fn first(backings: &Backings, backing: u64, count: u64) -> &[u32]
    ensures { result.now ≡ refs_at backings.now.lists backing count }
{
    front(backings.lists.items(backing), count as usize)
}

fn front(items: &[u32], count: usize) -> &[u32]
    ensures { result.now ≡ take count items.now }
{
    if count < items.len() {
        &items[..count]
    } else {
        items
    }
}
