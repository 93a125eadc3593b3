//! Why params cannot be found.
ghost use Rattle.std.specs.Prelude.{◌≡◌};
ghost use Rattle.cluster_state.specs.declared.param_error.ParamError.TheVariants.{Memory};

use std::alloc::{AllocError, AllocFailed};
use thiserror::Error;

/// Why a binding's params cannot be found. If several causes hold, the first of this list is
/// reported.
#[derive(Clone, Copy, Debug, PartialEq, Eq, Error)]
pub enum ParamError {
    /// The kind is namespaced, and neither the binding nor the request has a namespace.
    #[error("namespaced params for a request of the cluster")]
    ClusterScopedRequest,
    /// The kind is cluster-scoped, and the binding has a namespace.
    #[error("a namespace for params of the cluster")]
    NeedlessNamespace,
    /// There are no params, and the binding denies their absence.
    #[error("no params")]
    NotFound,
    /// An allocation failed.
    #[error("out of memory")]
    Memory,
}

impl ParamError {
    ghost use Rattle.cluster_state.specs.Params.{param_error_text};

    /// The message of the API server for this error.
    pub fn text(&self) -> &'static str
        ensures { result.now ≡ param_error_text self.now }
    {
        match self {
            ParamError::ClusterScopedRequest => {
                "cannot use namespaced paramRef in policy binding that matches cluster-scoped resources"
            }
            ParamError::NeedlessNamespace => {
                "paramRef.namespace must not be provided for a cluster-scoped `paramKind`"
            }
            ParamError::NotFound => {
                "no params found for policy binding with `Deny` parameterNotFoundAction"
            }
            ParamError::Memory => "out of memory",
        }
    }
}

impl From<AllocError> for ParamError {
    ghost from_gives = { λ _ e. e ≡ Memory };

    fn from(_error: AllocError) -> ParamError {
        ParamError::Memory
    }
}

impl<T: Drop> From<AllocFailed<T>> for ParamError {
    ghost from_gives = { λ _ e. e ≡ Memory };

    fn from(_error: AllocFailed<T>) -> ParamError {
        ParamError::Memory
    }
}
