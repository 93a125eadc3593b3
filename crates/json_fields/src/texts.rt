//! Texts in fields.
ghost use Rattle.std.specs.Prelude.{◌≡◌, option_map};
ghost use Rattle.serde_json.specs.View.{view};
ghost use Rattle.value_store.specs.Documents.{equals_string};
ghost use Rattle.json_fields.specs.Fields.{text_of, text_or_empty_of};

use serde_json::Value;

/// A required text.
pub fn text<'a>(value: Option<&'a Value>) -> Option<&'a str>
    ensures { option_map (λ s. s.now) result ≡ text_of (option_map (λ v. view v.now) value.entry) }
{
    match value {
        Some(Value::String(found)) => Some(found.as_str()),
        _ => None,
    }
}

/// An optional text, empty if it is absent.
pub fn text_or_empty<'a>(value: Option<&'a Value>) -> Option<&'a str>
    ensures { option_map (λ s. s.now) result ≡ text_or_empty_of (option_map (λ v. view v.now) value.entry) }
{
    match value {
        None => Some(""),
        Some(Value::String(found)) => Some(found.as_str()),
        Some(_) => None,
    }
}

/// Whether the value is this text.
pub fn equals_string(value: Option<&Value>, text: &str) -> bool
    ensures { result ≡ equals_string (option_map (λ v. view v.now) value.entry) text.now }
{
    match value {
        Some(Value::String(found)) => found.as_str() == text,
        _ => false,
    }
}
