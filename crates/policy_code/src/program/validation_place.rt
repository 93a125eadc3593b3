//! Where a validation is in its policy.

use verdicts::FailurePolicy;

/// The place of a validation in its policy's list, and the policy's `failurePolicy`.
#[derive(Clone, Copy)]
pub(super) struct ValidationPlace {
    pub(super) failure_policy: FailurePolicy,
    pub(super) place: usize,
}
