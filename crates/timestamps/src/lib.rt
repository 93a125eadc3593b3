//! Timestamps in texts, as an API server's CEL library reads them: their order, sums and fields.
#![tactic(auto)]

mod arithmetic;
mod bytes;
mod calendar;
mod date;
mod dates;
mod fields;
mod fractions;
pub mod laws;
mod moment;
mod offsets;
mod reading;
mod splitting;

pub use date::Date;
pub use fields::Fields;
pub use moment::Timestamp;
pub use reading::timestamp_of;
