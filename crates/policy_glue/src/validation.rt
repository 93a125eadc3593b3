//! A validation.

pub use verdicts::Validation;
