//! Durations in texts, as an API server's CEL library reads them, in nanoseconds: their sums and their whole units.
#![tactic(auto)]

mod arithmetic;
mod duration_error;
pub mod laws;
mod numbers;
mod parts;
mod reading;
mod time_unit;
mod units;

pub use arithmetic::{difference, negated, sum};
pub use duration_error::DurationError;
pub use parts::{hours, milliseconds, minutes, seconds};
pub use reading::duration_of;
