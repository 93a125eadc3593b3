//! Bindings.
ghost use Rattle.std.specs.Prelude.{◌≡◌, Some, option_map};
ghost use Rattle.serde_json.specs.View.{view};
ghost use Rattle.json_fields.specs.Fields.{has_only};
ghost use Rattle.cluster_state.specs.Bindings.{ReadsBinding, binding_in, binding_keys, binding_parts, binding_spec, if_text};

use crate::action::Action;
use crate::actions::actions;
use crate::binding_error::BindingError;
use crate::binding_part::BindingPart;
use crate::param_ref::{ParamRef, param_ref};
use admission_documents::match_resources;
use admission_match::MatchResources;
use json_fields::{field, has_only_keys, text};
use serde_json::Value;
use std::alloc::Global;

/// A binding of a policy (ValidatingAdmissionPolicyBinding).
#[derive(Debug, Drop)]
pub struct Binding<'a> {
    pub name: &'a str,
    /// The name of its policy, which need not exist.
    pub policy_name: &'a str,
    /// What happens if a validation is false, in the order of the document.
    pub actions: Vec<Action>,
    /// The requests that it applies to.
    pub resources: MatchResources,
    /// Where to find its params.
    pub param_ref: Option<ParamRef<'a>>,
}

impl<'a> Binding<'a> {
    /// Reads the binding with this name in its document.
    ///
    /// # Errors
    ///
    /// The first part that the API server does not store. `Memory` if an allocation fails.
    #[tactic(auto, unfolding(crate::specs::Bindings::binding_in))]
    pub fn read(
        alloc: Global,
        name: &'a str,
        document: &'a Value,
    ) -> Result<Binding<'a>, BindingError>
        ensures { ReadsBinding (binding_in name.now (view document.now)) result }
    {
        binding_spec(alloc, name, field(document, "spec"))
    }
}

fn binding_spec<'a>(
    alloc: Global,
    name: &'a str,
    value: Option<&'a Value>,
) -> Result<Binding<'a>, BindingError>
    ensures { ReadsBinding (binding_spec name.now (option_map (λ v. view v.now) value.entry)) result }
{
    match value {
        None => Err(BindingError::InvalidPart(BindingPart::Spec)),
        Some(value) => known_spec(alloc, name, value),
    }
}

fn known_spec<'a>(
    alloc: Global,
    name: &'a str,
    value: &'a Value,
) -> Result<Binding<'a>, BindingError>
    ensures { ReadsBinding (binding_spec name.now (Some (view value.now))) result }
{
    if !has_binding_keys(value) {
        return Err(BindingError::InvalidPart(BindingPart::Spec));
    }
    binding_parts(alloc, name, value)
}

#[tactic(auto, unfolding(crate::specs::Bindings::binding_keys))]
fn has_binding_keys(value: &Value) -> bool
    ensures { result ≡ has_only binding_keys (view value.now) }
{
    let known = [
        "matchResources",
        "paramRef",
        "policyName",
        "validationActions",
    ];
    has_only_keys(value, known.as_slice())
}

#[tactic(auto, unfolding(crate::specs::Bindings::binding_parts))]
fn binding_parts<'a>(
    alloc: Global,
    name: &'a str,
    value: &'a Value,
) -> Result<Binding<'a>, BindingError>
    ensures { ReadsBinding (binding_parts name.now (view value.now)) result }
{
    let Some(policy_name) = if_text(text(field(value, "policyName"))) else {
        return Err(BindingError::InvalidPart(BindingPart::PolicyName));
    };
    let actions = match actions(alloc, field(value, "validationActions")) {
        Ok(actions) => actions,
        Err(error) => return Err(BindingError::in_part(BindingPart::ValidationActions, error)),
    };
    let resources = match match_resources(alloc, field(value, "matchResources")) {
        Ok(resources) => resources,
        Err(error) => return Err(BindingError::in_part(BindingPart::MatchResources, error)),
    };
    match param_ref(alloc, field(value, "paramRef")) {
        Ok(param_ref) => Ok(Binding {
            name,
            policy_name,
            actions,
            resources,
            param_ref,
        }),
        Err(error) => Err(BindingError::in_part(BindingPart::ParamRef, error)),
    }
}

/// The text, if it is not empty.
#[tactic(auto, unfolding(crate::specs::Bindings::if_text))]
pub(crate) fn if_text<'a>(text: Option<&'a str>) -> Option<&'a str>
    ensures { option_map (λ s. s.now) result ≡ if_text (option_map (λ s. s.now) text.entry) }
{
    match text {
        Some(text) => not_empty(text),
        None => None,
    }
}

#[tactic(auto, unfolding(crate::specs::Bindings::if_text))]
fn not_empty<'a>(text: &'a str) -> Option<&'a str>
    ensures { option_map (λ s. s.now) result ≡ if_text (Some text.now) }
{
    if text.is_empty() { None } else { Some(text) }
}
