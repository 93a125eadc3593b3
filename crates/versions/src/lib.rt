//! Versions in texts, as an API server's CEL library reads and compares them.
#![tactic(auto)]

mod endings;
mod identifiers;
pub mod laws;
mod numerals;
mod order;
mod reading;
mod version;

pub use reading::version_of;
pub use version::{Version, int_of};
