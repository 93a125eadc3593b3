//! The fields of an AdmissionReview that matching and the response read, read from its JSON text.
#![tactic(auto)]

mod fields;
pub mod laws;
mod level;
mod reading;
pub mod rows;

pub use fields::read_fields;
