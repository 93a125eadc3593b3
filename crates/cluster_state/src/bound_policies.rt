//! Reads policies with bindings.
ghost use Rattle.std.specs.Prelude.{◌≡◌, option_map};
ghost use Rattle.serde_json.specs.View.{view};
ghost use Rattle.admission_documents.specs.Fields.{ReadsField};
ghost use Rattle.cluster_state.specs.Policies.{fails_closed, policy_in, policy_parts, policy_spec, policy_view};

use crate::param_kind::param_kind;
use crate::policy::Policy;
use admission_documents::{FieldError, match_constraints};
use json_fields::{equals_string, field};
use serde_json::Value;
use std::alloc::Global;

impl<'a> Policy<'a> {
    /// Reads the policy with this name in its document.
    ///
    /// # Errors
    ///
    /// The API server does not store its match constraints or its kind of params, or one of their
    /// keys is unknown.
    #[tactic(auto, unfolding(crate::specs::Policies::policy_in))]
    pub fn read(alloc: Global, name: &'a str, document: &'a Value) -> Result<Policy<'a>, FieldError>
        ensures { ReadsField policy_view (policy_in name.now (view document.now)) result }
    {
        policy_spec(alloc, name, document, field(document, "spec"))
    }

    /// Whether the policy's `failurePolicy` is not `Ignore`.
    pub fn fails_closed(&self) -> bool
        ensures { result ≡ fails_closed (policy_view self.now).document }
    {
        self.is_closed
    }
}

/// Whether the `failurePolicy` in a policy's document is not `Ignore`.
#[tactic(auto, unfolding(crate::specs::FailurePolicies::fails_closed))]
fn fails_closed(document: &Value) -> bool
    ensures { result ≡ fails_closed (view document.now) }
{
    match field(document, "spec") {
        Some(spec) => !equals_string(field(spec, "failurePolicy"), "Ignore"),
        None => true,
    }
}

fn policy_spec<'a>(
    alloc: Global,
    name: &'a str,
    document: &'a Value,
    spec: Option<&'a Value>,
) -> Result<Policy<'a>, FieldError>
    ensures { ReadsField policy_view (policy_spec name.now (view document.now) (option_map (λ v. view v.now) spec.entry)) result }
{
    match spec {
        None => Err(FieldError::InvalidField),
        Some(spec) => policy_parts(alloc, name, document, spec),
    }
}

#[tactic(auto, unfolding(crate::specs::Policies::policy_parts))]
fn policy_parts<'a>(
    alloc: Global,
    name: &'a str,
    document: &'a Value,
    spec: &'a Value,
) -> Result<Policy<'a>, FieldError>
    ensures { ReadsField policy_view (policy_parts name.now (view document.now) (view spec.now)) result }
{
    let constraints = match_constraints(alloc, field(spec, "matchConstraints"))?;
    match param_kind(field(spec, "paramKind")) {
        Some(param_kind) => Ok(Policy {
            name,
            document,
            constraints,
            param_kind,
            is_closed: fails_closed(document),
        }),
        None => Err(FieldError::InvalidField),
    }
}
