//! What happens if an expression cannot be decided.

pub use verdicts::FailurePolicy;
