//! How many items or entries the lists and maps in a value have at most.
#![tactic(auto)]

mod laws;

pub use laws::{parts_are_narrower, rows_stand};
