//! Why a policy gives no image.
ghost use Rattle.std.specs.Prelude.{◌≡◌};
ghost use Rattle.admission.specs.Refusals.{compile_refusal, document_refusal};
ghost use Rattle.admission.specs.declared.policy_refusal.PolicyRefusal.TheVariants as policy_refusal;

use policy_glue::{CompileError, PolicyError};
use std::alloc::AllocError;

/// Why a policy gives no image.
#[derive(Clone, Copy, Debug, PartialEq, Eq)]
pub enum PolicyRefusal {
    /// Its document is not a policy.
    Unread(PolicyError),
    /// The policy is not compiled.
    Uncompiled(CompileError),
    /// An allocation failed.
    Memory,
}

impl From<PolicyError> for PolicyRefusal {
    ghost from_gives = { λ e r. r ≡ document_refusal e };

    fn from(error: PolicyError) -> PolicyRefusal {
        match error {
            PolicyError::Memory => PolicyRefusal::Memory,
            _ => PolicyRefusal::Unread(error),
        }
    }
}

impl From<CompileError> for PolicyRefusal {
    ghost from_gives = { λ e r. r ≡ compile_refusal e };

    fn from(error: CompileError) -> PolicyRefusal {
        match error {
            CompileError::Memory => PolicyRefusal::Memory,
            _ => PolicyRefusal::Uncompiled(error),
        }
    }
}

impl From<AllocError> for PolicyRefusal {
    ghost from_gives = { λ _ e. e ≡ policy_refusal.Memory };

    fn from(_error: AllocError) -> PolicyRefusal {
        PolicyRefusal::Memory
    }
}
