//! What happens if an expression cannot be decided.

/// What happens if an expression cannot be decided. (Kubernetes, `failurePolicy`)
#[derive(Clone, Copy, Debug, PartialEq, Eq)]
pub enum FailurePolicy {
    /// The request is rejected.
    Fail,
    /// The expression is ignored.
    Ignore,
}
