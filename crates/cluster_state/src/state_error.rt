//! Why lists are not the state of a cluster.
ghost use Rattle.std.specs.Prelude.{◌≡◌};
ghost use Rattle.cluster_state.specs.declared.state_error.StateError.TheVariants.{Memory};

use crate::binding_part::BindingPart;
use std::alloc::{AllocError, AllocFailed};
use thiserror::Error;

/// Why lists are not the state of a cluster. If several causes hold, the first of this list is
/// reported: for lists and items the first one, for bindings and policies the one whose name comes
/// first.
#[derive(Debug, Drop, Error)]
pub enum StateError {
    /// The list at this place is not a List.
    #[error("the document {0} is not a List")]
    NotAList(usize),
    /// The item at this place has no `apiVersion`, `kind` or name, has a namespace or labels of the
    /// wrong type, or is a policy or a binding of another API version.
    #[error("the item {0} has not the form of an object")]
    InvalidItem(usize),
    /// Two items have this name, the same kind and the same namespace.
    #[error("two items are {0}")]
    DuplicateItem(String),
    /// There is no Namespace, although each cluster has one.
    #[error("no Namespace is listed")]
    NoNamespace,
    /// The API server does not store this part of the binding with this name, or one of its keys is
    /// unknown.
    #[error("{1} of the binding {0} has not its form")]
    InvalidBinding(String, BindingPart),
    /// The API server does not store the match constraints or the kind of params of the policy with
    /// this name, or one of their keys is unknown.
    #[error("the policy {0} has not its form")]
    InvalidPolicy(String),
    /// An allocation failed.
    #[error("out of memory")]
    Memory,
}

impl From<AllocError> for StateError {
    ghost from_gives = { λ _ e. e ≡ Memory };

    fn from(_error: AllocError) -> StateError {
        StateError::Memory
    }
}

impl<T: Drop> From<AllocFailed<T>> for StateError {
    ghost from_gives = { λ _ e. e ≡ Memory };

    fn from(_error: AllocFailed<T>) -> StateError {
        StateError::Memory
    }
}
