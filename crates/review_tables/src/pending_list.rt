//! The items of a list that is being read.

ghost use Rattle.std.specs.Prelude.{OnOk};
ghost use Rattle.review_tables.specs.Reading.{AddsItem};

use crate::placed::Placed;
use std::alloc::AllocError;
use value_table::small;

/// The items so far, and the size of the list. The list has no value if one of the items has none.
#[derive(Drop)]
pub(crate) struct PendingList {
    pub(crate) places: Vec<u32>,
    pub(crate) size: u64,
    pub(crate) whole: bool,
}

/// Appends an item.
pub(crate) fn add_item(pending: &mut PendingList, item: Option<Placed>) -> Result<(), AllocError>
    ensures { OnOk result (AddsItem pending.old item pending.new) }
{
    match item {
        Some(item) => {
            pending.places.push(small(item.place as usize)?)?;
            pending.size = pending.size.saturating_add(item.size);
        }
        None => pending.whole = false,
    }
    Ok(())
}
