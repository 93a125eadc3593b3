//! Scans of text, 32 bytes at a time: counting, comparing and skipping.
#![tactic(auto)]

mod comparing;
mod counting;
mod laws;
mod skipping;

pub use comparing::first_difference;
pub use counting::code_points;
pub use laws::{characters, rows_stand};
pub use skipping::skip_plain;
