//! The form of a policy's document.

ghost use Rattle.std.specs.Prelude.{◌≡◌, ◌≢◌, Err, option_map};
ghost use Rattle.serde_json.specs.View.{view};
ghost use Rattle.json_fields.specs.Fields.{is_object_or_absent};
ghost use Rattle.verdicts.specs.Policy.{policy_view};
ghost use Rattle.verdicts.specs.Reading.{failure_in, has_head, has_spec_form, has_top_form, policy_parts_in, spec_in, spec_parts, Forms};
ghost use Rattle.verdicts.specs.declared.policy_error.PolicyError.TheVariants.{Memory};

use crate::failure_policy::FailurePolicy;
use crate::name_rule::NameRule;
use crate::named_list::named_list;
use crate::parts::Parts;
use crate::policy_error::PolicyError;
use crate::validations::validations;
use json_fields::{equals_string, has_only_keys, is_object_or_absent};
use serde_json::Value;
use std::alloc::Global;

/// Whether the document has the API version and the kind of a policy.
#[tactic(auto, unfolding(crate::specs::Reading::has_head))]
pub fn has_head(value: &Value) -> bool
    ensures { result ≡ has_head (view value.now) }
{
    equals_string(value.get("apiVersion"), "admissionregistration.k8s.io/v1")
        && equals_string(value.get("kind"), "ValidatingAdmissionPolicy")
}

/// Reads the parts of a policy's document.
pub fn parts(alloc: Global, value: &Value) -> Result<Parts, PolicyError>
    ensures { Forms policy_view (policy_parts_in (view value.now)) result }
{
    if !has_top_form(value) {
        return Err(PolicyError::InvalidField);
    }
    spec(alloc, value.get("spec"))
}

#[tactic(auto, unfolding(crate::specs::Reading::has_top_form, crate::specs::Reading::top_keys))]
fn has_top_form(value: &Value) -> bool
    ensures { result ≡ has_top_form (view value.now) }
{
    has_only_keys(value, ["apiVersion", "kind", "metadata", "spec"].as_slice())
        && is_object_or_absent(value.get("metadata"))
}

fn spec(alloc: Global, value: Option<&Value>) -> Result<Parts, PolicyError>
    ensures { Forms policy_view (spec_in (option_map (λ v. view v.now) value.entry)) result }
{
    match value {
        Some(value) if has_spec_form(value) => spec_parts(alloc, value),
        _ => Err(PolicyError::InvalidField),
    }
}

#[tactic(auto, unfolding(crate::specs::Reading::has_spec_form, crate::specs::Reading::spec_keys))]
fn has_spec_form(value: &Value) -> bool
    ensures { result ≡ has_spec_form (view value.now) }
{
    let known = [
        "failurePolicy",
        "matchConditions",
        "matchConstraints",
        "paramKind",
        "validations",
        "variables",
    ];
    has_only_keys(value, known.as_slice())
        && is_object_or_absent(value.get("matchConstraints"))
        && is_object_or_absent(value.get("paramKind"))
}

#[tactic(auto, unfolding(crate::specs::Reading::spec_parts))]
fn spec_parts(alloc: Global, value: &Value) -> Result<Parts, PolicyError>
    ensures { Forms policy_view (spec_parts (view value.now)) result }
{
    let failure_policy = failure_policy(value.get("failurePolicy"))?;
    let conditions = named_list(alloc, value.get("matchConditions"), NameRule::NotEmpty)?;
    let variables = named_list(alloc, value.get("variables"), NameRule::Identifier)?;
    let validations = validations(alloc, value.get("validations"))?;
    Ok(Parts {
        failure_policy,
        conditions,
        variables,
        validations,
    })
}

fn failure_policy(value: Option<&Value>) -> Result<FailurePolicy, PolicyError>
    ensures reads { Forms (λ f. f) (failure_in (option_map (λ v. view v.now) value.entry)) result }
    ensures no_memory { result ≢ Err Memory }
{
    match value {
        None => Ok(FailurePolicy::Fail),
        Some(Value::String(name)) => match name.as_str() {
            "Fail" => Ok(FailurePolicy::Fail),
            "Ignore" => Ok(FailurePolicy::Ignore),
            _ => Err(PolicyError::InvalidField),
        },
        Some(_) => Err(PolicyError::InvalidField),
    }
}
