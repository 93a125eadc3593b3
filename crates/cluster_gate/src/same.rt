//! Whether values are the same.
ghost use Rattle.std.specs.Prelude.{◌≡◌, true, None};
ghost use Rattle.serde_json.specs.Find.{as_u64};
ghost use Rattle.serde_json.specs.View.{items_view, members_view, number_view, view};

use serde_json::{Map, Number, Value};

/// Whether the values are the same. Numbers with a fraction are not compared.
#[cycle(is_same)]
pub(crate) fn is_same(one: &Value, other: &Value) -> bool
    ensures { result ≡ true → view one.now ≡ view other.now }
{
    match (one, other) {
        (Value::Null, Value::Null) => true,
        (Value::Bool(one), Value::Bool(other)) => *one == *other,
        (Value::Number(one), Value::Number(other)) => is_same_integer(one, other),
        (Value::String(one), Value::String(other)) => one.as_str() == other.as_str(),
        (Value::Array(one), Value::Array(other)) => are_same_items(one, other),
        (Value::Object(one), Value::Object(other)) => are_same_members(one, other),
        _ => false,
    }
}

fn is_same_integer(one: &Number, other: &Number) -> bool
    ensures { result ≡ true → number_view one.now ≡ number_view other.now }
{
    match (one.as_u64(), other.as_u64()) {
        (Some(one), Some(other)) => one == other,
        (None, None) => is_same_below_zero(one, other),
        _ => false,
    }
}

fn is_same_below_zero(one: &Number, other: &Number) -> bool
    requires one { as_u64 (number_view one.now) ≡ None }
    requires other { as_u64 (number_view other.now) ≡ None }
    ensures { result ≡ true → number_view one.now ≡ number_view other.now }
{
    match (one.as_i64(), other.as_i64()) {
        (Some(one), Some(other)) => one == other,
        _ => false,
    }
}

#[cycle(is_same)]
fn are_same_items(one: &Vec<Value>, other: &Vec<Value>) -> bool
    ensures { result ≡ true → items_view one.now.items ≡ items_view other.now.items }
{
    if one.len() != other.len() {
        return false;
    }
    for i in 0..one.len() {
        if !is_same(&one[i], &other[i]) {
            return false;
        }
    }
    true
}

#[cycle(is_same)]
fn are_same_members(one: &Map<String, Value>, other: &Map<String, Value>) -> bool
    ensures { result ≡ true → members_view one.now.entries ≡ members_view other.now.entries }
{
    let mut others = other.iter();
    for (key, value) in one.iter() {
        match others.next() {
            Some((name, found)) if key.as_str() == name.as_str() && is_same(value, found) => {}
            _ => return false,
        }
    }
    others.next().is_none()
}
