//! Label selectors in documents.
ghost use Rattle.std.specs.Prelude.{◌≡◌, map, option_map, string_bytes};
ghost use Rattle.serde_json.specs.View.{items_view, members_view, view};
ghost use Rattle.label_selectors.specs.Selectors.{label_view, requirement_view, selector_view};
ghost use Rattle.json_fields.specs.Fields.{each};
ghost use Rattle.admission_documents.specs.Fields.{ReadsField};
ghost use Rattle.label_selectors.specs.Storing.{checked_label, checked_requirement};
ghost use Rattle.admission_documents.specs.Selectors.{each_label, label_in, match_expressions_of, match_labels_of, no_requirements, requirement_in, requirement_parts, selector_in, selector_of, selector_parts, stored_label, stored_requirement};

use crate::field_error::FieldError;
use crate::text_lists::texts;
use json_fields::{field, has_only_keys, text};
use label_selectors::{Label, LabelSelector, Requirement, check_label, check_requirement};
use serde_json::{Map, Value};
use std::alloc::Global;

/// Reads an optional selector. If it is absent, it has no requirements.
///
/// # Errors
///
/// A key is unknown, a value has the wrong type, or the API server does not store the selector.
#[tactic(auto, unfolding(crate::specs::Selectors::selector_of))]
pub fn selector(alloc: Global, value: Option<&Value>) -> Result<LabelSelector, FieldError>
    ensures { ReadsField selector_view (selector_of (option_map (λ v. view v.now) value.entry)) result }
{
    match value {
        None => Ok(empty_selector(alloc)),
        Some(value) => selector_in(alloc, value),
    }
}

/// The selector without requirements.
pub(crate) fn empty_selector(alloc: Global) -> LabelSelector
    ensures { selector_view result ≡ no_requirements }
{
    LabelSelector {
        match_labels: Vec::new(alloc),
        match_expressions: Vec::new(alloc),
    }
}

#[tactic(auto, unfolding(crate::specs::Selectors::selector_keys))]
fn selector_in(alloc: Global, value: &Value) -> Result<LabelSelector, FieldError>
    ensures { ReadsField selector_view (selector_in (view value.now)) result }
{
    if !has_only_keys(value, ["matchExpressions", "matchLabels"].as_slice()) {
        return Err(FieldError::InvalidField);
    }
    selector_parts(alloc, value)
}

#[tactic(auto, unfolding(crate::specs::Selectors::selector_parts))]
fn selector_parts(alloc: Global, value: &Value) -> Result<LabelSelector, FieldError>
    ensures { ReadsField selector_view (selector_parts (view value.now)) result }
{
    let match_labels = match_labels(alloc, field(value, "matchLabels"))?;
    let match_expressions = match_expressions(alloc, field(value, "matchExpressions"))?;
    Ok(LabelSelector {
        match_labels,
        match_expressions,
    })
}

#[tactic(auto, unfolding(crate::specs::Selectors::match_labels_of))]
fn match_labels(alloc: Global, value: Option<&Value>) -> Result<Vec<Label>, FieldError>
    ensures { ReadsField (λ v. map label_view v.items) (match_labels_of (option_map (λ v. view v.now) value.entry)) result }
{
    match value {
        None => Ok(Vec::new(alloc)),
        Some(Value::Object(members)) => labels_in(alloc, members),
        Some(_) => Err(FieldError::InvalidField),
    }
}

fn labels_in(alloc: Global, members: &Map<String, Value>) -> Result<Vec<Label>, FieldError>
    ensures { ReadsField (λ v. map label_view v.items) (each_label (members_view members.now.entries)) result }
{
    let mut labels = Vec::new(alloc);
    for (key, value) in members.iter() {
        labels.push(label(alloc, key, value)?)?;
    }
    Ok(labels)
}

#[tactic(auto, unfolding(crate::specs::Selectors::label_in))]
fn label(alloc: Global, key: &String, value: &Value) -> Result<Label, FieldError>
    ensures { ReadsField label_view (label_in (string_bytes key.now) (view value.now)) result }
{
    match value {
        Value::String(text) => stored_label(alloc, key.as_str(), text.as_str()),
        _ => Err(FieldError::InvalidField),
    }
}

fn stored_label(alloc: Global, key: &str, value: &str) -> Result<Label, FieldError>
    ensures { ReadsField label_view (stored_label key.now value.now (checked_label key.now value.now)) result }
{
    match check_label(key, value) {
        Ok(()) => Ok(Label {
            key: String::from_str(alloc, key)?,
            value: String::from_str(alloc, value)?,
        }),
        Err(_) => Err(FieldError::InvalidField),
    }
}

#[tactic(auto, unfolding(crate::specs::Selectors::match_expressions_of))]
fn match_expressions(alloc: Global, value: Option<&Value>) -> Result<Vec<Requirement>, FieldError>
    ensures { ReadsField (λ v. map requirement_view v.items) (match_expressions_of (option_map (λ v. view v.now) value.entry)) result }
{
    match value {
        None => Ok(Vec::new(alloc)),
        Some(Value::Array(items)) => requirements_in(alloc, items),
        Some(_) => Err(FieldError::InvalidField),
    }
}

fn requirements_in(alloc: Global, items: &Vec<Value>) -> Result<Vec<Requirement>, FieldError>
    ensures { ReadsField (λ v. map requirement_view v.items) (each requirement_in (items_view items.now.items)) result }
{
    let mut requirements = Vec::new(alloc);
    for item in items {
        requirements.push(requirement(alloc, item)?)?;
    }
    Ok(requirements)
}

#[tactic(auto, unfolding(crate::specs::Selectors::requirement_keys))]
fn requirement(alloc: Global, value: &Value) -> Result<Requirement, FieldError>
    ensures { ReadsField requirement_view (requirement_in (view value.now)) result }
{
    if !has_only_keys(value, ["key", "operator", "values"].as_slice()) {
        return Err(FieldError::InvalidField);
    }
    requirement_parts(alloc, value)
}

#[tactic(auto, unfolding(crate::specs::Selectors::requirement_parts))]
fn requirement_parts(alloc: Global, value: &Value) -> Result<Requirement, FieldError>
    ensures { ReadsField requirement_view (requirement_parts (view value.now)) result }
{
    let Some(key) = text(field(value, "key")) else {
        return Err(FieldError::InvalidField);
    };
    let Some(operator) = text(field(value, "operator")) else {
        return Err(FieldError::InvalidField);
    };
    let values = texts(alloc, field(value, "values"))?;
    stored_requirement(alloc, key, operator, values)
}

fn stored_requirement(
    alloc: Global,
    key: &str,
    operator: &str,
    values: Vec<String>,
) -> Result<Requirement, FieldError>
    ensures { ReadsField requirement_view (stored_requirement key.now (map string_bytes values.items) (checked_requirement key.now operator.now (map string_bytes values.items))) result }
{
    match check_requirement(key, operator, &values) {
        Ok(operator) => Ok(Requirement {
            key: String::from_str(alloc, key)?,
            operator,
            values,
        }),
        Err(_) => Err(FieldError::InvalidField),
    }
}
