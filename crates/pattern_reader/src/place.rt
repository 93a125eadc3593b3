//! Where a pattern is read.

ghost use Rattle.std.specs.Prelude.{◌≡◌};
ghost use Rattle.pattern_reader.specs.Items as items;

use crate::item::Item;

/// Where a pattern is read.
#[derive(Clone, Copy)]
pub enum Place {
    /// Outside brackets.
    Outside,
    /// Right after brackets open.
    Opened,
    /// In brackets.
    Inside,
}

/// The place after an item.
pub fn place_after(item: Item) -> Place
    ensures { result ≡ items.place_after item }
{
    match item {
        Item::OpenBracket(_) => Place::Opened,
        Item::Range(_, _) | Item::Member(_) => Place::Inside,
        _ => Place::Outside,
    }
}
