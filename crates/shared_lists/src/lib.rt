//! Vectors and lists that copies share until one of them grows.
#![tactic(auto)]

mod backing;
mod lists;
mod room;
mod row;
mod small_number;

pub use backing::Backing;
pub use lists::Lists;
pub use room::fill;
pub use small_number::small;
