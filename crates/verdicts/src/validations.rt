//! Validations in a document.

ghost use Rattle.std.specs.Prelude.{◌≡◌, ◌≢◌, Err, map, option_map};
ghost use Rattle.serde_json.specs.View.{view, items_view};
ghost use Rattle.json_fields.specs.Fields.{each, list_in};
ghost use Rattle.verdicts.specs.Policy.{validation_view};
ghost use Rattle.verdicts.specs.Reading.{reason_in, validation_in, validation_parts, Forms};
ghost use Rattle.verdicts.specs.declared.policy_error.PolicyError.TheVariants.{Memory};

use crate::documents::{optional_text, text, text_or_empty};
use crate::policy_error::PolicyError;
use crate::reason::Reason;
use crate::validation::Validation;
use json_fields::has_only_keys;
use serde_json::Value;
use std::alloc::Global;

/// A required list of validations.
pub fn validations(alloc: Global, value: Option<&Value>) -> Result<Vec<Validation>, PolicyError>
    ensures { Forms (λ v. map validation_view v.items) (list_in validation_in (option_map (λ v. view v.now) value.entry)) result }
{
    match value {
        Some(Value::Array(items)) => validations_of(alloc, items),
        _ => Err(PolicyError::InvalidField),
    }
}

fn validations_of(alloc: Global, items: &Vec<Value>) -> Result<Vec<Validation>, PolicyError>
    ensures { Forms (λ v. map validation_view v.items) (each validation_in (items_view items.now.items)) result }
{
    let mut list = Vec::new(alloc);
    for item in items {
        list.push(validation(alloc, item)?)?;
    }
    Ok(list)
}

#[tactic(auto, unfolding(crate::specs::Reading::validation_keys))]
fn validation(alloc: Global, value: &Value) -> Result<Validation, PolicyError>
    ensures { Forms validation_view (validation_in (view value.now)) result }
{
    let known = ["expression", "message", "messageExpression", "reason"];
    if !has_only_keys(value, known.as_slice()) {
        return Err(PolicyError::InvalidField);
    }
    validation_parts(alloc, value)
}

#[tactic(auto, unfolding(crate::specs::Reading::validation_parts))]
fn validation_parts(alloc: Global, value: &Value) -> Result<Validation, PolicyError>
    ensures { Forms validation_view (validation_parts (view value.now)) result }
{
    let expression = text(alloc, value.get("expression"))?;
    let message = text_or_empty(alloc, value.get("message"))?;
    let reason = reason(value.get("reason"))?;
    let message_expression = optional_text(alloc, value.get("messageExpression"))?;
    Ok(Validation {
        expression,
        message,
        reason,
        message_expression,
    })
}

#[tactic(auto, unfolding(crate::specs::Reading::reason_in))]
fn reason(value: Option<&Value>) -> Result<Reason, PolicyError>
    ensures reads { Forms (λ r. r) (reason_in (option_map (λ v. view v.now) value.entry)) result }
    ensures no_memory { result ≢ Err Memory }
{
    match value {
        None => Ok(Reason::Invalid),
        Some(Value::String(name)) => match name.as_str() {
            "Unauthorized" => Ok(Reason::Unauthorized),
            "Forbidden" => Ok(Reason::Forbidden),
            "Invalid" => Ok(Reason::Invalid),
            "RequestEntityTooLarge" => Ok(Reason::RequestEntityTooLarge),
            _ => Err(PolicyError::InvalidField),
        },
        Some(_) => Err(PolicyError::InvalidField),
    }
}
