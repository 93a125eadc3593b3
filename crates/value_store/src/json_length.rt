//! The length of a document's JSON text, capped at the greatest number of 64 bits.

ghost use Rattle.std.specs.Prelude.{◌≡◌, length};
ghost use Rattle.std.specs.Fmt.{signed_decimal};
ghost use Rattle.json.specs.Print.{escape_byte, quoted};
ghost use Rattle.serde_json.specs.Data.{array, object};
ghost use Rattle.serde_json.specs.View.{view, items_view, members_view};
ghost use Rattle.value_store.specs.Json.{json_text};
ghost use Rattle.value_store.specs.Plain.{plain_value, saturated};
ghost use Rattle.value_store.specs.Value.{boolean};

use crate::number::integer;
use itoa::Buffer;
use serde_json::{Map, Value};

/// The length of the JSON text of a document's value in bytes. The recursion is as deep as the document.
#[cycle(text_length)]
pub(crate) fn text_length(value: &Value) -> u64
    ensures { result ≡ saturated (length (json_text (plain_value (view value.now)))) }
{
    match value {
        Value::Null => 4,
        Value::Bool(truth) => truth_length(*truth),
        Value::Number(n) => int_length(integer(n)),
        Value::String(text) => quoted_length(text.as_bytes()),
        Value::Array(items) => items_length(items),
        Value::Object(members) => members_length(members),
    }
}

fn truth_length(truth: bool) -> u64
    ensures { result ≡ saturated (length (json_text (boolean truth))) }
{
    if truth { 4 } else { 5 }
}

fn int_length(n: i64) -> u64
    ensures { result ≡ saturated (length (signed_decimal n)) }
{
    Buffer::new().format(n).len() as u64
}

// The length of a text in JSON, with its quotes and escapes.
fn quoted_length(text: &[u8]) -> u64
    ensures { result ≡ saturated (length (quoted text.now)) }
{
    let mut length = 2u64;
    for byte in text {
        length = length.saturating_add(escaped_length(*byte));
    }
    length
}

#[tactic(auto, unfolding(json::specs::Print::escape_byte))]
fn escaped_length(byte: u8) -> u64
    ensures { result ≡ length (escape_byte byte) }
{
    match byte {
        8 | 9 | 10 | 12 | 13 | 34 | 92 => 2,
        0..=31 => 6,
        _ => 1,
    }
}

// A bracket or a comma precedes each item, and a bracket follows the last.
#[cycle(text_length)]
#[tactic(auto, using(crate::proofs::Lengths::all_items, crate::proofs::Lengths::list_long, std::proofs::lemmas::List::drop_all))]
fn items_length(items: &Vec<Value>) -> u64
    ensures { result ≡ saturated (length (json_text (plain_value (array (items_view items.now.items))))) }
{
    let mut length = 1u64;
    for item in items {
        length = length.saturating_add(1).saturating_add(text_length(item));
    }
    length.max(2)
}

// A brace or a comma precedes each member, a colon follows its key, and a brace follows the last member.
#[cycle(text_length)]
#[tactic(auto, using(crate::proofs::Lengths::all_members, crate::proofs::Lengths::map_long))]
fn members_length(members: &Map<String, Value>) -> u64
    ensures { result ≡ saturated (length (json_text (plain_value (object (members_view members.now.entries))))) }
{
    let mut length = 1u64;
    for (key, member) in members.iter() {
        length = length
            .saturating_add(quoted_length(key.as_bytes()))
            .saturating_add(2)
            .saturating_add(text_length(member));
    }
    length.max(2)
}
