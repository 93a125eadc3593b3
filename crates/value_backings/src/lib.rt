//! Storage of the texts, lists and maps that cells refer to.
#![tactic(auto)]

mod backings;
mod borrowed;
mod entries;
mod part;
mod plain;
mod quoting;
mod room;

pub use backings::Backings;
pub use borrowed::{keys, text};
pub use part::Part;
