//! Why a document is not a policy.

pub use verdicts::PolicyError;
