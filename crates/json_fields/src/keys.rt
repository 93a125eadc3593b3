//! Keys of objects.
ghost use Rattle.std.specs.Prelude.{◌≡◌, map};
ghost use Rattle.std.specs.List.{list_any};
ghost use Rattle.std.specs.Str.{bytes_eq};
ghost use Rattle.serde_json.specs.View.{members_view, view};
ghost use Rattle.json_fields.specs.Fields.{has_only, keys_within};

use serde_json::{Map, Value};

/// Whether the value is an object with known keys only.
pub fn has_only_keys(value: &Value, known: &[&str]) -> bool
    ensures { result ≡ has_only (map (λ s. s.now) known.now) (view value.now) }
{
    match value {
        Value::Object(members) => keys_known(members, known),
        _ => false,
    }
}

fn keys_known(members: &Map<String, Value>, known: &[&str]) -> bool
    ensures { result ≡ keys_within (map (λ s. s.now) known.now) (members_view members.now.entries) }
{
    for (key, _value) in members.iter() {
        if !is_known(key.as_str(), known) {
            return false;
        }
    }
    true
}

fn is_known(key: &str, known: &[&str]) -> bool
    ensures { result ≡ list_any (bytes_eq key.now) (map (λ s. s.now) known.now) }
{
    match known {
        [] => false,
        [first, rest @ ..] => key == *first || is_known(key, rest),
    }
}
