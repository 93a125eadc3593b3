//! Policies with bindings.
ghost use Rattle.std.proofs.Props.{props};
ghost use Rattle.std.specs.Prelude.{◌≡◌};
ghost use Rattle.serde_json.specs.View.{view};
ghost use Rattle.cluster_state.specs.FailurePolicies.{fails_closed as FailsClosed};

use crate::param_kind::ParamKind;
use admission_match::MatchResources;
use serde_json::Value;

/// A policy that has a binding (ValidatingAdmissionPolicy): the requests that it applies to, and
/// its kind of params. Its expressions are in its document.
#[derive(Debug, Drop)]
pub struct Policy<'a> {
    pub name: &'a str,
    pub document: &'a Value,
    pub constraints: MatchResources,
    pub param_kind: Option<ParamKind<'a>>,
    /// Whether its `failurePolicy` is not `Ignore`.
    pub(crate) is_closed: bool,
    ghost closed: { is_closed ≡ FailsClosed (view document.now) } by { Prim.hlevel props },
}
