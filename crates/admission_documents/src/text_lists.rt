//! Lists of texts.
ghost use Rattle.std.specs.Prelude.{map, option_map, string_bytes};
ghost use Rattle.serde_json.specs.View.{items_view, view};
ghost use Rattle.json_fields.specs.Fields.{each, text_in, texts_of};
ghost use Rattle.admission_documents.specs.Fields.{ReadsField};

use crate::field_error::FieldError;
use serde_json::Value;
use std::alloc::Global;

/// An optional list of texts, empty if it is absent.
#[tactic(auto, unfolding(json_fields::specs::Fields::texts_of))]
pub fn texts(alloc: Global, value: Option<&Value>) -> Result<Vec<String>, FieldError>
    ensures { ReadsField (λ v. map string_bytes v.items) (texts_of (option_map (λ v. view v.now) value.entry)) result }
{
    match value {
        None => Ok(Vec::new(alloc)),
        Some(Value::Array(items)) => texts_in(alloc, items),
        Some(_) => Err(FieldError::InvalidField),
    }
}

fn texts_in(alloc: Global, items: &Vec<Value>) -> Result<Vec<String>, FieldError>
    ensures { ReadsField (λ v. map string_bytes v.items) (each text_in (items_view items.now.items)) result }
{
    let mut texts = Vec::new(alloc);
    for item in items {
        texts.push(text_in(alloc, item)?)?;
    }
    Ok(texts)
}

fn text_in(alloc: Global, value: &Value) -> Result<String, FieldError>
    ensures { ReadsField string_bytes (text_in (view value.now)) result }
{
    match value {
        Value::String(found) => Ok(String::from_str(alloc, found.as_str())?),
        _ => Err(FieldError::InvalidField),
    }
}
