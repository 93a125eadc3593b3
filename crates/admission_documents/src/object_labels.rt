//! The labels of an object.
ghost use Rattle.std.specs.Prelude.{◌≡◌, option_map};
ghost use Rattle.serde_json.specs.View.{members_view, view};
ghost use Rattle.json_fields.specs.Fields.{field};
ghost use Rattle.admission_documents.specs.Selectors.{are_texts, if_text_map, is_text_map, labels_field, labels_in, labels_view, text_at};

use json_fields::{field, field_of, text};
use label_selectors::Labels;
use serde_json::{Map, Value};

/// The labels of an object in a document, borrowed from it.
#[derive(Clone, Copy, Debug, Drop)]
pub struct ObjectLabels<'a> {
    /// A map of texts, if the object has labels.
    labels: Option<&'a Value>,
}

impl<'a> ObjectLabels<'a> {
    /// The labels in the object's `metadata`. If they are not a map of texts, the object has none.
    #[tactic(auto, unfolding(crate::specs::Selectors::labels_in))]
    pub fn of(object: &'a Value) -> ObjectLabels<'a>
        ensures { labels_view result ≡ labels_in (view object.now) }
    {
        ObjectLabels {
            labels: if_text_map(labels_field(object)),
        }
    }
}

impl Labels for ObjectLabels<'_> {
    ghost map = { labels_view };

    fn value(&self, key: &str) -> Option<&str> {
        text_at(self.labels, key)
    }
}

/// The text at a key of an object.
fn text_at<'a>(value: Option<&'a Value>, key: &str) -> Option<&'a str>
    ensures { option_map (λ s. s.now) result ≡ text_at (option_map (λ v. view v.now) value.entry) key.now }
{
    match value {
        Some(members) => text(members.get(key)),
        None => None,
    }
}

/// The value of `labels` in the object's `metadata`, of any type.
pub fn labels_field(object: &Value) -> Option<&Value>
    ensures { option_map (λ v. view v.now) result ≡ labels_field (view object.now) }
{
    field_of(field(object, "metadata"), "labels")
}

/// The value, if it is a map of texts.
fn if_text_map<'a>(value: Option<&'a Value>) -> Option<&'a Value>
    ensures { option_map (λ v. view v.now) result ≡ if_text_map (option_map (λ v. view v.now) value.entry) }
{
    if is_text_map(value) { value } else { None }
}

/// Whether the value is a map of texts.
pub fn is_text_map(value: Option<&Value>) -> bool
    ensures { result ≡ is_text_map (option_map (λ v. view v.now) value.entry) }
{
    match value {
        Some(Value::Object(members)) => are_texts(members),
        _ => false,
    }
}

fn are_texts(members: &Map<String, Value>) -> bool
    ensures { result ≡ are_texts (members_view members.now.entries) }
{
    for (_key, value) in members.iter() {
        if !value.is_string() {
            return false;
        }
    }
    true
}
