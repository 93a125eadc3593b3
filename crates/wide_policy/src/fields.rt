//! Fields of objects.

ghost use Rattle.std.specs.Prelude.{◌≡◌, IfOk};
ghost use Rattle.serde_json.specs.View.{members_view, view};
ghost use Rattle.json_fields.specs.Members.{changed};
ghost use Rattle.wide_policy.specs.WideDocuments.{trimmed, unless_empty_list, unless_empty_text};

use crate::source::{is_empty_list, is_empty_text};
use json_fields::{member, others, put_if};
use serde_json::{Map, Value};
use std::alloc::{AllocError, Global};

/// The members without this key, if its value is an empty list.
pub(crate) fn unless_empty_list(members: Map<String, Value>, key: &str) -> Map<String, Value>
    ensures { members_view result.entries ≡ unless_empty_list key.now (members_view members.entries) }
{
    if is_empty_list(member(&members, key)) {
        return others(members, key);
    }
    members
}

/// The members without this key, if its value is the empty text.
pub(crate) fn unless_empty_text(members: Map<String, Value>, key: &str) -> Map<String, Value>
    ensures { members_view result.entries ≡ unless_empty_text key.now (members_view members.entries) }
{
    if is_empty_text(member(&members, key)) {
        return others(members, key);
    }
    members
}

/// The members with the text at this key trimmed, if the key is there.
pub(crate) fn with_trimmed(
    alloc: Global,
    members: Map<String, Value>,
    key: &str,
) -> Result<Map<String, Value>, AllocError>
    ensures { IfOk result (λ m. members_view m.entries ≡ changed key.now trimmed (members_view members.entries)) }
{
    let value = match member(&members, key) {
        Some(value) => Some(trimmed(alloc, value)?),
        None => None,
    };
    put_if(alloc, members, key, value)
}

/// A text without the blanks around it; any other value is unchanged.
fn trimmed(alloc: Global, value: &Value) -> Result<Value, AllocError>
    ensures { IfOk result (λ v. view v ≡ trimmed (view value.now)) }
{
    match value {
        Value::String(text) => Ok(Value::String(String::from_str(alloc, text.as_str().trim())?)),
        _ => value.clone(),
    }
}
