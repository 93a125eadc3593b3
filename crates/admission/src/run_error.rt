//! Why a review has no response.
ghost use Rattle.std.specs.Prelude.{◌≡◌};
ghost use Rattle.admission.specs.Exiting.{no_exit_error};
ghost use Rattle.admission.specs.Refusals.{placing_refusal, run_policy_refusal};
ghost use Rattle.admission.specs.Reviews.{refusal_at, table_refusal};
ghost use Rattle.admission.specs.declared.run_error.RunError.TheVariants as run_error;

use crate::policy_refusal::PolicyRefusal;
use review_tables::ReviewError;
use run_ends::NoExit;
use std::alloc::AllocError;
use thiserror::Error;
use verdicts::refusal_codes::{
    NAMESPACE_OR_PARAMS_REFUSED, OUT_OF_READS, OUT_OF_STEPS, OVER_LIMIT, REVIEW_REFUSED,
};
use wide_tables::WrapError;

/// Why a review has no response. The policy is checked first, then the form of the review, the
/// namespace and the params, then the roots. The program runs last.
#[derive(Clone, Copy, Debug, PartialEq, Eq, Error)]
pub enum RunError {
    /// The policy is refused, and why.
    #[error("the policy is refused")]
    PolicyRefused(PolicyRefusal),
    /// The review is not a JSON text or does not have the form of a review; or the root object,
    /// oldObject or request is refused; or the roots together are too large, as they are or with the
    /// table of indices that the policy needs.
    #[error("the review is refused")]
    ReviewRefused,
    /// The namespace or the params are not a JSON text, or are refused as a root.
    #[error("the namespace or the params are refused")]
    NamespaceOrParamsRefused,
    /// The program of the policy did not end within the given number of steps.
    #[error("the policy's program has not ended")]
    OutOfSteps,
    /// The program of the policy was stopped by `F8`: the charge would exceed 16,777,216, or a list
    /// or map would be deeper than 255.
    #[error("the policy's program was stopped")]
    OverLimit,
    /// The next helper call of the policy's program would bring what its calls read above the limit
    /// of reads.
    #[error("the policy's program has read too much")]
    OutOfReads,
    /// An allocation failed.
    #[error("out of memory")]
    Memory,
}

impl RunError {
    ghost use Rattle.std.specs.Prelude.{◌≤◌, length};
    ghost use Rattle.admission.specs.ErrorCodes.{run_error_code};

    /// The error's code, `N1` to `N5`, `N7` or `memory`, without the code of the policy's refusal.
    pub fn code(&self) -> &'static str
        ensures text { result.now ≡ run_error_code self.now }
        ensures length { length result.now ≤ 6 }
    {
        match self {
            RunError::PolicyRefused(_) => "N1",
            RunError::ReviewRefused => REVIEW_REFUSED,
            RunError::NamespaceOrParamsRefused => NAMESPACE_OR_PARAMS_REFUSED,
            RunError::OutOfSteps => OUT_OF_STEPS,
            RunError::OverLimit => OVER_LIMIT,
            RunError::OutOfReads => OUT_OF_READS,
            RunError::Memory => "memory",
        }
    }
}

impl From<AllocError> for RunError {
    ghost from_gives = { λ _ e. e ≡ run_error.Memory };

    fn from(_error: AllocError) -> RunError {
        RunError::Memory
    }
}

impl From<PolicyRefusal> for RunError {
    ghost from_gives = { λ e r. r ≡ run_policy_refusal e };

    fn from(error: PolicyRefusal) -> RunError {
        match error {
            PolicyRefusal::Memory => RunError::Memory,
            _ => RunError::PolicyRefused(error),
        }
    }
}

impl From<ReviewError> for RunError {
    ghost from_gives = { λ e r. r ≡ table_refusal e };

    fn from(error: ReviewError) -> RunError {
        match error {
            ReviewError::InvalidReview => RunError::ReviewRefused,
            ReviewError::InvalidDocument => RunError::NamespaceOrParamsRefused,
            ReviewError::RootRefused(place) => refusal_at(place),
            ReviewError::ChargeTooLarge => RunError::ReviewRefused,
            ReviewError::Memory => RunError::Memory,
        }
    }
}

impl From<WrapError> for RunError {
    ghost from_gives = { λ e r. r ≡ placing_refusal e };

    fn from(error: WrapError) -> RunError {
        match error {
            WrapError::Memory => RunError::Memory,
            WrapError::NoRoots | WrapError::TooLarge => RunError::ReviewRefused,
        }
    }
}

impl From<NoExit> for RunError {
    ghost from_gives = { λ e r. r ≡ no_exit_error e };

    fn from(error: NoExit) -> RunError {
        match error {
            NoExit::Stopped => RunError::OverLimit,
            NoExit::OutOfReads => RunError::OutOfReads,
            NoExit::OutOfSteps => RunError::OutOfSteps,
        }
    }
}

/// The refusal of the root with this reference.
fn refusal_at(place: u64) -> RunError
    ensures { result ≡ refusal_at place }
{
    if place == 6 || place == 7 {
        RunError::NamespaceOrParamsRefused
    } else {
        RunError::ReviewRefused
    }
}
