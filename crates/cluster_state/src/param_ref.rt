//! References to params.
ghost use Rattle.std.specs.Prelude.{◌≡◌, Some, option_map};
ghost use Rattle.serde_json.specs.View.{view};
ghost use Rattle.json_fields.specs.Fields.{has_only};
ghost use Rattle.admission_documents.specs.Fields.{ReadsField};
ghost use Rattle.cluster_state.specs.Bindings.{absence_of, choice_from, choice_in, choice_view, param_ref_in, param_ref_keys, param_ref_of, param_ref_parts, param_ref_view};

use crate::param_choice::ParamChoice;
use admission_documents::{FieldError, selector};
use json_fields::{field, has_only_keys, text_or_empty};
use serde_json::Value;
use std::alloc::Global;

/// Where to find a binding's params (ParamRef).
#[derive(Debug, Drop)]
pub struct ParamRef<'a> {
    pub choice: ParamChoice<'a>,
    /// Empty if the reference has none.
    pub namespace: &'a str,
    /// Whether a request is denied if there are no params.
    pub denies_absence: bool,
}

/// Reads an optional reference to params.
#[tactic(auto, unfolding(crate::specs::Bindings::param_ref_of))]
pub(crate) fn param_ref<'a>(
    alloc: Global,
    value: Option<&'a Value>,
) -> Result<Option<ParamRef<'a>>, FieldError>
    ensures { ReadsField (option_map param_ref_view) (param_ref_of (option_map (λ v. view v.now) value.entry)) result }
{
    match value {
        Some(value) => Ok(Some(param_ref_in(alloc, value)?)),
        None => Ok(None),
    }
}

fn param_ref_in<'a>(alloc: Global, value: &'a Value) -> Result<ParamRef<'a>, FieldError>
    ensures { ReadsField param_ref_view (param_ref_in (view value.now)) result }
{
    if !has_param_ref_keys(value) {
        return Err(FieldError::InvalidField);
    }
    param_ref_parts(alloc, value)
}

#[tactic(auto, unfolding(crate::specs::Bindings::param_ref_keys))]
fn has_param_ref_keys(value: &Value) -> bool
    ensures { result ≡ has_only param_ref_keys (view value.now) }
{
    let known = ["name", "namespace", "parameterNotFoundAction", "selector"];
    has_only_keys(value, known.as_slice())
}

#[tactic(auto, unfolding(crate::specs::Bindings::param_ref_parts))]
fn param_ref_parts<'a>(alloc: Global, value: &'a Value) -> Result<ParamRef<'a>, FieldError>
    ensures { ReadsField param_ref_view (param_ref_parts (view value.now)) result }
{
    let choice = choice_in(alloc, value)?;
    let Some(namespace) = text_or_empty(field(value, "namespace")) else {
        return Err(FieldError::InvalidField);
    };
    let Some(denies_absence) = absence(field(value, "parameterNotFoundAction")) else {
        return Err(FieldError::InvalidField);
    };
    Ok(ParamRef {
        choice,
        namespace,
        denies_absence,
    })
}

#[tactic(auto, unfolding(crate::specs::Bindings::choice_in))]
fn choice_in<'a>(alloc: Global, value: &'a Value) -> Result<ParamChoice<'a>, FieldError>
    ensures { ReadsField choice_view (choice_in (view value.now)) result }
{
    let Some(name) = text_or_empty(field(value, "name")) else {
        return Err(FieldError::InvalidField);
    };
    choice_from(alloc, name, field(value, "selector"))
}

fn choice_from<'a>(
    alloc: Global,
    name: &'a str,
    value: Option<&'a Value>,
) -> Result<ParamChoice<'a>, FieldError>
    ensures { ReadsField choice_view (choice_from (Some name.now) (option_map (λ v. view v.now) value.entry)) result }
{
    match value {
        None => {
            if name.is_empty() {
                return Err(FieldError::InvalidField);
            }
            Ok(ParamChoice::Named(name))
        }
        Some(_) => {
            if name.is_empty() {
                return Ok(ParamChoice::Selected(selector(alloc, value)?));
            }
            Err(FieldError::InvalidField)
        }
    }
}

/// Whether the absence of params denies. The field is required.
#[tactic(auto, unfolding(crate::specs::Bindings::absence_of))]
fn absence(value: Option<&Value>) -> Option<bool>
    ensures { result ≡ absence_of (option_map (λ v. view v.now) value.entry) }
{
    match value {
        Some(Value::String(name)) => match name.as_str() {
            "Deny" => Some(true),
            "Allow" => Some(false),
            _ => None,
        },
        _ => None,
    }
}
