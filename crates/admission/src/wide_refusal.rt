//! Why a policy in the wide language gives no image.
ghost use Rattle.std.specs.Prelude.{◌≡◌};
ghost use Rattle.admission.specs.Refusals.{wide_compile_refusal, wide_document_refusal};

use policy_glue::CompileError;
use wide_policy::WidePolicyError;

/// Why a policy in the wide language gives no image.
#[derive(Debug, Drop)]
pub enum WideRefusal {
    /// Its document is not a policy, or an expression has no translation.
    Unread(WidePolicyError),
    /// The policy of the translations is not compiled.
    Uncompiled(CompileError),
    /// An allocation failed.
    Memory,
}

impl From<WidePolicyError> for WideRefusal {
    ghost from_gives = { λ e r. r ≡ wide_document_refusal e };

    fn from(error: WidePolicyError) -> WideRefusal {
        match error {
            WidePolicyError::Memory => WideRefusal::Memory,
            other => WideRefusal::Unread(other),
        }
    }
}

impl From<CompileError> for WideRefusal {
    ghost from_gives = { λ e r. r ≡ wide_compile_refusal e };

    fn from(error: CompileError) -> WideRefusal {
        match error {
            CompileError::Memory => WideRefusal::Memory,
            _ => WideRefusal::Uncompiled(error),
        }
    }
}
