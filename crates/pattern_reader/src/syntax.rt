//! A pattern as it was read.

use crate::flags::Flags;
use crate::item::Item;

/// A pattern as it was read: its flags and its items.
#[derive(Drop)]
pub struct Syntax {
    pub flags: Flags,
    pub items: Vec<Item>,
}
