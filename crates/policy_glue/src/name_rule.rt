//! Which names are allowed.

pub use verdicts::NameRule;
