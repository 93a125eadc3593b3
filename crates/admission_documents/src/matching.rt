//! Match resources in documents.
ghost use Rattle.std.specs.Prelude.{◌≡◌, option_map};
ghost use Rattle.serde_json.specs.View.{view};
ghost use Rattle.admission_match.specs.Matching.{match_view};
ghost use Rattle.json_fields.specs.Fields.{has_only};
ghost use Rattle.admission_documents.specs.Fields.{ReadsField};
ghost use Rattle.admission_documents.specs.Matching.{if_has_rules, match_all, match_constraints_of, match_in, match_keys, match_parts, match_policy_of, match_resources_of};

use crate::field_error::FieldError;
use crate::rules::rules;
use crate::selectors::{empty_selector, selector};
use admission_match::{MatchPolicy, MatchResources};
use json_fields::{field, has_only_keys};
use serde_json::Value;
use std::alloc::Global;

/// Reads the `matchResources` of a binding. If they are absent, they match every request.
///
/// # Errors
///
/// A key is unknown, a value has the wrong type, or the API server does not store it.
#[tactic(auto, unfolding(crate::specs::Matching::match_resources_of))]
pub fn match_resources(alloc: Global, value: Option<&Value>) -> Result<MatchResources, FieldError>
    ensures { ReadsField match_view (match_resources_of (option_map (λ v. view v.now) value.entry)) result }
{
    match value {
        None => Ok(match_all(alloc)),
        Some(value) => match_in(alloc, value),
    }
}

/// Reads the `matchConstraints` of a policy. They are required and must have a rule.
///
/// # Errors
///
/// The errors of `match_resources`, and that they are absent or have no rule.
#[tactic(auto, unfolding(crate::specs::Matching::match_constraints_of))]
pub fn match_constraints(alloc: Global, value: Option<&Value>) -> Result<MatchResources, FieldError>
    ensures { ReadsField match_view (match_constraints_of (option_map (λ v. view v.now) value.entry)) result }
{
    match value {
        None => Err(FieldError::InvalidField),
        Some(value) => constraints_in(alloc, value),
    }
}

fn constraints_in(alloc: Global, value: &Value) -> Result<MatchResources, FieldError>
    ensures { ReadsField match_view (if_has_rules (match_in (view value.now))) result }
{
    let resources = match_in(alloc, value)?;
    if resources.resource_rules.is_empty() {
        return Err(FieldError::InvalidField);
    }
    Ok(resources)
}

fn match_all(alloc: Global) -> MatchResources
    ensures { match_view result ≡ match_all }
{
    MatchResources {
        match_policy: MatchPolicy::Equivalent,
        namespace_selector: empty_selector(alloc),
        object_selector: empty_selector(alloc),
        resource_rules: Vec::new(alloc),
        exclude_resource_rules: Vec::new(alloc),
    }
}

fn match_in(alloc: Global, value: &Value) -> Result<MatchResources, FieldError>
    ensures { ReadsField match_view (match_in (view value.now)) result }
{
    if !has_match_keys(value) {
        return Err(FieldError::InvalidField);
    }
    match_parts(alloc, value)
}

#[tactic(auto, unfolding(crate::specs::Matching::match_keys))]
fn has_match_keys(value: &Value) -> bool
    ensures { result ≡ has_only match_keys (view value.now) }
{
    let known = [
        "excludeResourceRules",
        "matchPolicy",
        "namespaceSelector",
        "objectSelector",
        "resourceRules",
    ];
    has_only_keys(value, known.as_slice())
}

#[tactic(auto, unfolding(crate::specs::Matching::match_parts))]
fn match_parts(alloc: Global, value: &Value) -> Result<MatchResources, FieldError>
    ensures { ReadsField match_view (match_parts (view value.now)) result }
{
    let Some(match_policy) = match_policy(field(value, "matchPolicy")) else {
        return Err(FieldError::InvalidField);
    };
    let namespace_selector = selector(alloc, field(value, "namespaceSelector"))?;
    let object_selector = selector(alloc, field(value, "objectSelector"))?;
    let resource_rules = rules(alloc, field(value, "resourceRules"))?;
    let exclude_resource_rules = rules(alloc, field(value, "excludeResourceRules"))?;
    Ok(MatchResources {
        match_policy,
        namespace_selector,
        object_selector,
        resource_rules,
        exclude_resource_rules,
    })
}

/// The match policy, `Equivalent` by default.
#[tactic(auto, unfolding(crate::specs::Matching::match_policy_of))]
fn match_policy(value: Option<&Value>) -> Option<MatchPolicy>
    ensures { result ≡ match_policy_of (option_map (λ v. view v.now) value.entry) }
{
    match value {
        None => Some(MatchPolicy::Equivalent),
        Some(Value::String(name)) => match name.as_str() {
            "Exact" => Some(MatchPolicy::Exact),
            "Equivalent" => Some(MatchPolicy::Equivalent),
            _ => None,
        },
        Some(_) => None,
    }
}
