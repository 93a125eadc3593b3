//! The commands on images: making, running, listing and debugging them.

pub(crate) mod assembling;
pub(crate) mod compiling;
pub(crate) mod debugging;
pub(crate) mod listing;
pub(crate) mod making;
pub(crate) mod null_table;
pub(crate) mod opening;
pub(crate) mod running;
pub(crate) mod source_kind;
