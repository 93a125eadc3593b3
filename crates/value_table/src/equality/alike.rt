//! Whether two cells agree in everything but the values of their parts.

ghost use Rattle.std.specs.Prelude.{◌≡◌, Decides};
ghost use Rattle.value_table.specs.Meaning.{part_of};
ghost use Rattle.value_table.specs.Heaps.{IsText, AreTexts};
ghost use Rattle.value_table.specs.Heads.{head, texts_of, IsReadable};

use crate::content::Content;
use value_backings::{Backings, Part, keys, text};

/// Whether two cells are of one kind and have the same simple value, number of items, or keys.
pub(crate) fn alike(backings: &Backings, left: Content, right: Content) -> bool
    requires left { IsReadable backings.now left }
    requires right { IsReadable backings.now right }
    ensures { Decides result (head backings.now left ≡ head backings.now right) }
{
    match (left, right) {
        (Content::Null, Content::Null) => true,
        (Content::Bool(a), Content::Bool(b)) => a == b,
        (Content::Int(a), Content::Int(b)) => a == b,
        (Content::Text(a), Content::Text(b)) => same_text(backings.bytes.items(), a, b),
        (Content::List(_, m), Content::List(_, n)) => m == n,
        (Content::Map(k, _, m), Content::Map(l, _, n)) => {
            let all = backings.keys.items();
            let left = keys(all, k as u64, m as u64);
            let right = keys(all, l as u64, n as u64);
            same_keys(backings.bytes.items(), left, right)
        }
        _ => false,
    }
}

// Whether two maps have the same keys.
#[tactic(auto, using(crate::proofs::Maps::map_part, crate::proofs::Maps::map_more))]
fn same_keys(bytes: &[u8], left: &[Part], right: &[Part]) -> bool
    requires left { AreTexts bytes.now left.now }
    requires right { AreTexts bytes.now right.now }
    ensures { Decides result (texts_of bytes.now left.now ≡ texts_of bytes.now right.now) }
{
    if left.len() != right.len() {
        return false;
    }
    for i in 0..left.len() {
        if !same_text(bytes, left[i], right[i]) {
            return false;
        }
    }
    true
}

// Whether two texts are the same. A text at one place with itself is.
fn same_text(bytes: &[u8], left: Part, right: Part) -> bool
    requires left { IsText bytes.now left }
    requires right { IsText bytes.now right }
    ensures { Decides result (part_of bytes.now left ≡ part_of bytes.now right) }
{
    if left.from == right.from && left.to == right.to {
        return true;
    }
    text(bytes, left) == text(bytes, right)
}
