//! Outcomes of policies.

pub use verdicts::Outcome;
