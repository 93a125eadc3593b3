//! The statuses of refusals.
ghost use Rattle.std.specs.Prelude.{◌≡◌};
ghost use Rattle.celbpf_calls.specs.Statuses.{policy_status, run_status, wide_policy_status, wide_status};

use admission::{PolicyRefusal, RunError, WideRefusal};
use wide_policy::WidePolicyError;

/// The status of a call whose policy gives no image.
pub fn policy_status(refusal: PolicyRefusal) -> u32
    ensures { result ≡ policy_status refusal }
{
    match refusal {
        PolicyRefusal::Unread(_) => 2,
        PolicyRefusal::Uncompiled(_) => 3,
        PolicyRefusal::Memory => 9,
    }
}

/// The status of a call whose policy in the wide language gives no image.
pub fn wide_status(refusal: &WideRefusal) -> u32
    ensures { result ≡ wide_status refusal.now }
{
    match refusal {
        WideRefusal::Unread(error) => wide_policy_status(error),
        WideRefusal::Uncompiled(_) => 3,
        WideRefusal::Memory => 9,
    }
}

/// The status of a call whose document is no policy in the wide language.
fn wide_policy_status(error: &WidePolicyError) -> u32
    ensures { result ≡ wide_policy_status error.now }
{
    match error {
        WidePolicyError::Unread(_) => 2,
        WidePolicyError::HasAuditAnnotations => 2,
        WidePolicyError::InvalidExpression(_, _, _) => 3,
        WidePolicyError::Memory => 9,
    }
}

/// The status of a call whose review has no response.
pub fn run_status(error: RunError) -> u32
    ensures { result ≡ run_status error }
{
    match error {
        RunError::PolicyRefused(refusal) => policy_status(refusal),
        RunError::ReviewRefused => 4,
        RunError::NamespaceOrParamsRefused => 5,
        RunError::OutOfSteps => 6,
        RunError::OverLimit => 7,
        RunError::OutOfReads => 12,
        RunError::Memory => 9,
    }
}
