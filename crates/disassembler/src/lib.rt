//! Disassembles machine code: whole listings, and single lines of them.
#![tactic(auto)]

mod dis_error;
mod front;
mod laws;
mod lines;

pub use dis_error::DisError;
pub use laws::{one_listing, rows_stand};
pub use lines::{line_at, listing};
