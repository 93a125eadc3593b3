//! Members of objects.
ghost use Rattle.std.specs.Prelude.{◌≡◌, map, option_map, IfOk};
ghost use Rattle.serde_json.specs.Find.{get_member};
ghost use Rattle.serde_json.specs.View.{members_view, view};
ghost use Rattle.json_fields.specs.Members.{others, put_if, without_null, without_nulls};

use crate::fields::is_absent;
use serde_json::{Map, Value, put};
use std::alloc::{AllocError, Global};

/// The value at a key.
pub fn member<'v>(members: &'v Map<String, Value>, key: &str) -> Option<&'v Value>
    ensures { option_map (λ v. view v.now) result ≡ get_member key.now (members_view members.now.entries) }
{
    members.get(key)
}

/// The members with other keys.
pub fn others(members: Map<String, Value>, key: &str) -> Map<String, Value>
    ensures { members_view result.entries ≡ others key.now (members_view members.entries) }
{
    let mut members = members;
    let _value = members.remove(key);
    members
}

/// The members with this value at the key, if there is one.
pub fn put_if(
    alloc: Global,
    members: Map<String, Value>,
    key: &str,
    value: Option<Value>,
) -> Result<Map<String, Value>, AllocError>
    ensures { IfOk result (λ m. members_view m.entries ≡ put_if key.now (option_map view value) (members_view members.entries)) }
{
    let mut members = members;
    if let Some(value) = value {
        put(&mut members, alloc, key, value)?;
    }
    Ok(members)
}

/// The members without this key, if its value is null.
pub fn without_null(members: Map<String, Value>, key: &str) -> Map<String, Value>
    ensures { members_view result.entries ≡ without_null key.now (members_view members.entries) }
{
    if is_absent(member(&members, key)) {
        return others(members, key);
    }
    members
}

/// The members without those of these keys whose values are null.
pub fn without_nulls(members: Map<String, Value>, keys: &[&str]) -> Map<String, Value>
    ensures { members_view result.entries ≡ without_nulls (map (λ s. s.now) keys.now) (members_view members.entries) }
{
    match keys {
        [] => members,
        [first, rest @ ..] => without_nulls(without_null(members, first), rest),
    }
}
