//! Why a document is not a policy.

ghost use Rattle.std.specs.Prelude.{◌≡◌};
ghost use Rattle.verdicts.specs.declared.policy_error.PolicyError.TheVariants.{Memory};

use std::alloc::{AllocError, AllocFailed};
use thiserror::Error;

/// Why a document is not a policy. If several causes hold, the first of this list is reported.
#[derive(Clone, Copy, Debug, PartialEq, Eq, Error)]
pub enum PolicyError {
    /// It is not a JSON text.
    #[error("the policy is no JSON text")]
    NotJson,
    /// It is not an object, or its `apiVersion` or `kind` is missing or different.
    #[error("the document is no ValidatingAdmissionPolicy")]
    NotAPolicy,
    /// A key is unknown or missing or has a value of the wrong type, or a name, the failure policy
    /// or a reason is not allowed.
    #[error("the policy has not the form of a ValidatingAdmissionPolicy")]
    InvalidField,
    /// It has no validation.
    #[error("the policy has no validation")]
    NoValidations,
    /// It has more than 64 match conditions, variables or validations.
    #[error("the policy has more than 64 conditions, variables or validations")]
    TooManyParts,
    /// The message of a validation has a line feed or a carriage return.
    #[error("a message of the policy has a line break")]
    MessageWithLineBreak,
    /// An allocation failed.
    #[error("out of memory")]
    Memory,
}

impl PolicyError {
    ghost use Rattle.std.specs.Prelude.{◌≤◌, length};
    ghost use Rattle.verdicts.specs.ErrorCodes.{policy_error_code};

    /// The error's code: `K1` to `K5`, `K8`, or `memory`.
    pub fn code(&self) -> &'static str
        ensures text { result.now ≡ policy_error_code self.now }
        ensures length { length result.now ≤ 6 }
    {
        match self {
            PolicyError::NotJson => "K1",
            PolicyError::NotAPolicy => "K2",
            PolicyError::InvalidField => "K3",
            PolicyError::NoValidations => "K4",
            PolicyError::TooManyParts => "K5",
            PolicyError::MessageWithLineBreak => "K8",
            PolicyError::Memory => "memory",
        }
    }
}

impl From<AllocError> for PolicyError {
    ghost from_gives = { λ _ e. e ≡ Memory };

    fn from(_error: AllocError) -> PolicyError {
        PolicyError::Memory
    }
}

impl<T: Drop> From<AllocFailed<T>> for PolicyError {
    ghost from_gives = { λ _ e. e ≡ Memory };

    fn from(_error: AllocFailed<T>) -> PolicyError {
        PolicyError::Memory
    }
}
