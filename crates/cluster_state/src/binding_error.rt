//! Why a binding cannot be read.
ghost use Rattle.std.specs.Prelude.{◌≡◌};
ghost use Rattle.cluster_state.specs.Parts.{binding_error_in};

use crate::binding_part::BindingPart;
use admission_documents::FieldError;
use thiserror::Error;

/// Why a binding cannot be read.
#[derive(Clone, Copy, Debug, PartialEq, Eq, Error)]
pub enum BindingError {
    /// The API server does not store this part, or one of its keys is unknown.
    #[error("{0} has not its form")]
    InvalidPart(BindingPart),
    /// An allocation failed.
    #[error("out of memory")]
    Memory,
}

impl BindingError {
    /// The error of a part that cannot be read.
    pub(crate) fn in_part(part: BindingPart, error: FieldError) -> BindingError
        ensures { result ≡ binding_error_in part error }
    {
        match error {
            FieldError::InvalidField => BindingError::InvalidPart(part),
            FieldError::Memory => BindingError::Memory,
        }
    }
}
