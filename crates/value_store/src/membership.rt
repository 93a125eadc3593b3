//! Whether a document's value is a member of another's.

ghost use Rattle.std.specs.Prelude.{◌≡◌};
ghost use Rattle.serde_json.specs.View.{view, items_view};
ghost use Rattle.value_store.specs.Lookup.{has_item, member};
ghost use Rattle.value_store.specs.Plain.{plain_value, plain_items};

use crate::equality::same;
use crate::members::has_member;
use serde_json::Value;

/// Whether the list `container` has an item equal to the value, or the map `container` has
/// the text as a key; `None` for other kinds.
pub(crate) fn among(value: &Value, container: &Value) -> Option<bool>
    ensures { result ≡ member (plain_value (view value.now)) (plain_value (view container.now)) }
{
    match container {
        Value::Array(items) => Some(is_item(value, items)),
        Value::Object(members) => match value {
            Value::String(key) => Some(has_member(members, key.as_bytes())),
            _ => None,
        },
        _ => None,
    }
}

fn is_item(value: &Value, items: &Vec<Value>) -> bool
    ensures { result ≡ has_item (plain_value (view value.now)) (plain_items (items_view items.now.items)) }
{
    for item in items {
        if same(value, item) {
            return true;
        }
    }
    false
}
