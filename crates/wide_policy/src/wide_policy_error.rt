//! Why a document is not a policy that is translated.

ghost use Rattle.std.specs.Prelude.{◌≡◌};
ghost use Rattle.wide_policy.specs.Errors.{from_policy, needs_indices};
ghost use Rattle.wide_policy.specs.declared.wide_policy_error.WidePolicyError.TheVariants.{Memory};

use crate::expression_error::WideExpressionError;
use policy_glue::{PartKind, PolicyError};
use std::alloc::{AllocError, AllocFailed};
use thiserror::Error;
use wide_translation::TranslationError;

/// Why a document is refused. The first refusal is reported: of the document, and then of its expressions, in order.
#[derive(Debug, Drop, Error)]
pub enum WidePolicyError {
    /// The document is not a policy.
    #[error("{0}")]
    Unread(PolicyError),
    /// The policy has `auditAnnotations`.
    #[error("the policy has auditAnnotations, which are not supported")]
    HasAuditAnnotations,
    /// The expression of a part is refused. Gives the kind of the part, its place in its list, counted from 0, and the
    /// cause.
    #[error("{0} {1}: {2}")]
    InvalidExpression(PartKind, usize, WideExpressionError),
    /// An allocation failed.
    #[error("out of memory")]
    Memory,
}

impl WidePolicyError {
    /// Whether the expression is refused because it needs a table of indices.
    pub(crate) fn needs_indices(&self) -> bool
        ensures { result ≡ needs_indices self.now }
    {
        matches!(
            self,
            WidePolicyError::InvalidExpression(
                _,
                _,
                WideExpressionError::Untranslated(TranslationError::NeedsIndices)
            )
        )
    }
}

impl From<PolicyError> for WidePolicyError {
    ghost from_gives = { λ e x. x ≡ from_policy e };

    fn from(error: PolicyError) -> WidePolicyError {
        match error {
            PolicyError::Memory => WidePolicyError::Memory,
            _ => WidePolicyError::Unread(error),
        }
    }
}

impl From<AllocError> for WidePolicyError {
    ghost from_gives = { λ _ e. e ≡ Memory };

    fn from(_error: AllocError) -> WidePolicyError {
        WidePolicyError::Memory
    }
}

impl<T: Drop> From<AllocFailed<T>> for WidePolicyError {
    ghost from_gives = { λ _ e. e ≡ Memory };

    fn from(_error: AllocFailed<T>) -> WidePolicyError {
        WidePolicyError::Memory
    }
}
