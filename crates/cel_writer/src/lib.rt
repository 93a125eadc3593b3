//! Writes expressions as texts that are read as the same expressions.
#![tactic(auto)]

mod laws;
mod printing;
mod quoting;
mod same;
mod write_error;
mod writing;

pub use laws::printed_rows_hold;
pub use write_error::WriteError;
pub use writing::write;
