//! Texts in documents.

ghost use Rattle.std.specs.Prelude.{option_map, string_bytes};
ghost use Rattle.serde_json.specs.View.{view};
ghost use Rattle.json_fields.specs.Fields.{optional_text_of, text_of, text_or_empty_of};
ghost use Rattle.verdicts.specs.Reading.{Forms};

use crate::policy_error::PolicyError;
use serde_json::Value;
use std::alloc::Global;

/// A required text.
pub fn text(alloc: Global, value: Option<&Value>) -> Result<String, PolicyError>
    ensures { Forms string_bytes (text_of (option_map (λ v. view v.now) value.entry)) result }
{
    match value {
        Some(Value::String(found)) => Ok(String::from_str(alloc, found.as_str())?),
        _ => Err(PolicyError::InvalidField),
    }
}

/// An optional text.
pub fn optional_text(alloc: Global, value: Option<&Value>) -> Result<Option<String>, PolicyError>
    ensures { Forms (option_map string_bytes) (optional_text_of (option_map (λ v. view v.now) value.entry)) result }
{
    match value {
        None => Ok(None),
        Some(Value::String(found)) => Ok(Some(String::from_str(alloc, found.as_str())?)),
        Some(_) => Err(PolicyError::InvalidField),
    }
}

/// An optional text, empty if it is absent.
pub fn text_or_empty(alloc: Global, value: Option<&Value>) -> Result<String, PolicyError>
    ensures { Forms string_bytes (text_or_empty_of (option_map (λ v. view v.now) value.entry)) result }
{
    match value {
        None => Ok(String::new(alloc)),
        Some(Value::String(found)) => Ok(String::from_str(alloc, found.as_str())?),
        Some(_) => Err(PolicyError::InvalidField),
    }
}
