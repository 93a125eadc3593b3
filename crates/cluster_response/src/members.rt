//! Objects that are built member by member.
ghost use Rattle.std.specs.Prelude.{◌≡◌, IfOk, option_map};
ghost use Rattle.serde_json.specs.Data as json;
ghost use Rattle.serde_json.specs.View.{members_view, view};
ghost use Rattle.json_fields.specs.Members.{put_if};

use json_fields::put_if;
use serde_json::{Map, Value, json};
use std::alloc::{AllocError, Global};

/// The members of an object, unless an allocation failed.
pub(crate) type Members = Result<Map<String, Value>, AllocError>;

pub(crate) fn no_members(alloc: Global) -> Members
    ensures { IfOk result (λ m. members_view m.entries ≡ json.no_members) }
{
    Ok(Map::new(alloc))
}

/// The object with these members.
pub(crate) fn object(members: Members) -> Result<Value, AllocError>
    ensures { (ms : json.Members) → IfOk members (λ m. members_view m.entries ≡ ms) → IfOk result (λ v. view v ≡ json.object ms) }
{
    Ok(Value::Object(members?))
}

/// The members with one more, if it has a value.
pub(crate) fn with_member(
    alloc: Global,
    members: Members,
    name: &str,
    value: Option<Value>,
) -> Members
    ensures { (ms : json.Members) → IfOk members (λ m. members_view m.entries ≡ ms)
        → IfOk result (λ m. members_view m.entries ≡ put_if name.now (option_map view value) ms) }
{
    match members {
        Ok(members) => put_if(alloc, members, name, value),
        Err(error) => {
            drop(value);
            Err(error)
        }
    }
}

/// The members with one more, whose value is a text.
pub(crate) fn with_text(alloc: Global, members: Members, name: &str, text: &str) -> Members
    ensures { (ms : json.Members) → IfOk members (λ m. members_view m.entries ≡ ms)
        → IfOk result (λ m. members_view m.entries ≡ json.put name.now (json.string text.now) ms) }
{
    match json!(in alloc; text) {
        Ok(value) => with_member(alloc, members, name, Some(value)),
        Err(error) => Err(error),
    }
}

/// The members with one more, whose value is a truth.
pub(crate) fn with_flag(alloc: Global, members: Members, name: &str, flag: bool) -> Members
    ensures { (ms : json.Members) → IfOk members (λ m. members_view m.entries ≡ ms)
        → IfOk result (λ m. members_view m.entries ≡ json.put name.now (json.boolean flag) ms) }
{
    match json!(in alloc; flag) {
        Ok(value) => with_member(alloc, members, name, Some(value)),
        Err(error) => Err(error),
    }
}

/// The members with one more, whose value is a number.
pub(crate) fn with_number(alloc: Global, members: Members, name: &str, number: u64) -> Members
    ensures { (ms : json.Members) → IfOk members (λ m. members_view m.entries ≡ ms)
        → IfOk result (λ m. members_view m.entries ≡ json.put name.now (json.number (json.unsigned number)) ms) }
{
    match json!(in alloc; number) {
        Ok(value) => with_member(alloc, members, name, Some(value)),
        Err(error) => Err(error),
    }
}
