//! Fields of objects.
ghost use Rattle.std.specs.Prelude.{◌≡◌, map, option_map};
ghost use Rattle.serde_json.specs.View.{items_view, view};
ghost use Rattle.json_fields.specs.Fields.{array_of, field, field_of, is_absent, is_object_or_absent, items_list};

use serde_json::Value;

/// The field with this name, if it is present and not null.
#[tactic(auto, unfolding(crate::specs::Fields::field))]
pub fn field<'a>(value: &'a Value, name: &str) -> Option<&'a Value>
    ensures { option_map (λ v. view v.now) result ≡ field name.now (view value.now) }
{
    match value.get(name) {
        None | Some(Value::Null) => None,
        Some(found) => Some(found),
    }
}

/// The field of an optional object.
pub fn field_of<'a>(value: Option<&'a Value>, name: &str) -> Option<&'a Value>
    ensures { option_map (λ v. view v.now) result ≡ field_of name.now (option_map (λ v. view v.now) value.entry) }
{
    match value {
        Some(value) => field(value, name),
        None => None,
    }
}

/// Whether a field is missing or null.
pub fn is_absent(value: Option<&Value>) -> bool
    ensures { result ≡ is_absent (option_map (λ v. view v.now) value.entry) }
{
    match value {
        None | Some(Value::Null) => true,
        Some(_) => false,
    }
}

/// Whether the value is an object or missing.
pub fn is_object_or_absent(value: Option<&Value>) -> bool
    ensures { result ≡ is_object_or_absent (option_map (λ v. view v.now) value.entry) }
{
    match value {
        None | Some(Value::Object(_)) => true,
        Some(_) => false,
    }
}

/// The items of an array.
pub fn array_of<'a>(value: Option<&'a Value>) -> Option<&'a [Value]>
    ensures { option_map (λ v. map view v.now) result ≡ array_of (option_map (λ v. view v.now) value.entry) }
{
    match value {
        Some(Value::Array(items)) => Some(slice_of(items)),
        _ => None,
    }
}

fn slice_of(items: &Vec<Value>) -> &[Value]
    ensures { map view result.now ≡ items_list (items_view items.now.items) }
{
    items.as_slice()
}
