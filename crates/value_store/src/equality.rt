//! Deep equality of documents' values.

ghost use Rattle.std.specs.Prelude.{◌≡◌, bytes_eq};
ghost use Rattle.serde_json.specs.View.{view, items_view, members_view};
ghost use Rattle.value_store.specs.Equality.{truth_equal, int_equal, equal, items_equal, entries_equal};
ghost use Rattle.value_store.specs.Plain.{plain_value, plain_items, plain_entries};

use crate::number::integer;
use serde_json::{Map, Value};

/// Whether two documents have equal values. The recursion is as deep as the documents.
#[cycle(same)]
pub(crate) fn same(left: &Value, right: &Value) -> bool
    ensures { result ≡ equal (plain_value (view left.now)) (plain_value (view right.now)) }
{
    match (left, right) {
        (Value::Null, Value::Null) => true,
        (Value::Bool(a), Value::Bool(b)) => same_truth(*a, *b),
        (Value::Number(a), Value::Number(b)) => same_int(integer(a), integer(b)),
        (Value::String(a), Value::String(b)) => same_text(a.as_str(), b.as_str()),
        (Value::Array(a), Value::Array(b)) => same_items(a, b),
        (Value::Object(a), Value::Object(b)) => same_members(a, b),
        _ => false,
    }
}

fn same_truth(a: bool, b: bool) -> bool
    ensures { result ≡ truth_equal a b }
{
    a == b
}

fn same_int(a: i64, b: i64) -> bool
    ensures { result ≡ int_equal a b }
{
    a == b
}

fn same_text(a: &str, b: &str) -> bool
    ensures { result ≡ bytes_eq a.now b.now }
{
    a == b
}

#[cycle(same)]
#[tactic(auto, using(crate::proofs::Pairs::other_length))]
fn same_items(left: &Vec<Value>, right: &Vec<Value>) -> bool
    ensures { result ≡ items_equal (plain_items (items_view left.now.items)) (plain_items (items_view right.now.items)) }
{
    if left.len() != right.len() {
        return false;
    }
    for place in 0..left.len() {
        if !same(&left[place], &right[place]) {
            return false;
        }
    }
    true
}

#[cycle(same)]
fn same_members(left: &Map<String, Value>, right: &Map<String, Value>) -> bool
    ensures { result ≡ entries_equal (plain_entries (members_view left.now.entries)) (plain_entries (members_view right.now.entries)) }
{
    let mut others = right.iter();
    for (key, member) in left.iter() {
        match others.next() {
            Some((other_key, other)) => {
                if !same_text(key.as_str(), other_key.as_str()) {
                    return false;
                }
                if !same(member, other) {
                    return false;
                }
            }
            None => return false,
        }
    }
    others.next().is_none()
}
