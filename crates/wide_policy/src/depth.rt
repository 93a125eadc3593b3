//! The depth of expressions. A measure recurses no deeper than the limit.

ghost use Rattle.std.specs.Prelude.{◌≡◌, max, min};
ghost use Rattle.std.specs.Prelude as list;
ghost use Rattle.wide_reader.specs.Tree.{entries, entry_view, item_view, items, view, wides};
ghost use Rattle.wide_policy.specs.Depth as specs;

use wide_reader::{Access, Wide};

/// The maximum depth of an expression.
const DEPTH_LIMIT: u16 = 512;

/// The greater of two depths.
fn greater(a: u16, b: u16) -> u16
    ensures { result ≡ max a b }
{
    a.max(b)
}

/// The greatest of three depths.
fn greatest(a: u16, b: u16, c: u16) -> u16
    ensures { result ≡ max a (max b c) }
{
    a.max(b.max(c))
}

/// The greatest depth of these, or `most` if it is less.
#[cycle(depth)]
#[tactic(auto, unfolding(crate::specs::Depth::depth))]
fn parts_depth(parts: &[Wide], most: u16) -> u16
    ensures { result ≡ min (specs.wides_depth (wides (list.map view parts.now))) most }
{
    let mut deepest = 0;
    for part in parts {
        deepest = greater(deepest, depth(part, most));
    }
    deepest
}

/// The greatest depth of these items, or `most` if it is less.
#[cycle(depth)]
#[tactic(auto, unfolding(crate::specs::Depth::depth))]
fn items_depth(parts: &[(Access, Wide)], most: u16) -> u16
    ensures { result ≡ min (specs.items_depth (items (list.map item_view parts.now))) most }
{
    let mut deepest = 0;
    for (_, part) in parts {
        deepest = greater(deepest, depth(part, most));
    }
    deepest
}

/// The greatest depth of these keys and values, or `most` if it is less.
#[cycle(depth)]
#[tactic(auto, unfolding(crate::specs::Depth::depth))]
fn entries_depth(parts: &[(Access, Wide, Wide)], most: u16) -> u16
    ensures { result ≡ min (specs.entries_depth (entries (list.map entry_view parts.now))) most }
{
    let mut deepest = 0;
    for (_, key, value) in parts {
        deepest = greater(deepest, greater(depth(key, most), depth(value, most)));
    }
    deepest
}

/// The depth of an expression, or `most` if it is less.
#[cycle(depth)]
#[tactic(auto, using(crate::proofs::Views::view_list, crate::proofs::Views::view_map), unfolding(crate::specs::Depth::depth))]
fn depth(wide: &Wide, most: u16) -> u16
    ensures { result ≡ min (specs.depth (view wide.now)) most }
{
    if most == 0 {
        return 0;
    }
    let rest = most - 1;
    match wide {
        Wide::Literal(_) | Wide::Uint(_) | Wide::Name(_) | Wide::Root(_) => 1,
        Wide::Select(of, _, _) | Wide::Has(of, _) | Wide::Unary(_, of) => 1 + depth(of, rest),
        Wide::Index(a, _, b)
        | Wide::Binary(_, a, b)
        | Wide::Fold(_, a, _, b)
        | Wide::OptionalFold(_, a, _, b)
        | Wide::PairFold(_, a, _, _, b) => 1 + greater(depth(a, rest), depth(b, rest)),
        Wide::Ternary(a, b, c) => 1 + greatest(depth(a, rest), depth(b, rest), depth(c, rest)),
        Wide::FilterMap(a, _, b, c) | Wide::PairFilterMap(a, _, _, b, c) => {
            1 + greatest(depth(a, rest), depth(b, rest), depth(c, rest))
        }
        Wide::List(parts) => 1 + items_depth(parts.as_slice(), rest),
        Wide::Map(parts) => 1 + entries_depth(parts.as_slice(), rest),
        Wide::Call(_, parts) => 1 + parts_depth(parts.as_slice(), rest),
        Wide::Method(of, _, parts) => {
            1 + greater(depth(of, rest), parts_depth(parts.as_slice(), rest))
        }
    }
}

/// Whether an expression is deeper than the limit.
pub(crate) fn is_too_deep(wide: &Wide) -> bool
    ensures { result ≡ specs.is_too_deep (view wide.now) }
{
    depth(wide, DEPTH_LIMIT + 1) > DEPTH_LIMIT
}
