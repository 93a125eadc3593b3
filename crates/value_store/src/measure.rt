//! The size and the depth of a document's value.

ghost use Rattle.std.specs.Prelude.{◌≡◌, ◌+◌, max, length, OnSome};
ghost use Rattle.serde_json.specs.Data.{array, object};
ghost use Rattle.serde_json.specs.View.{view, items_view, members_view};
ghost use Rattle.value_store.specs.Keys.{IsDocumentOrdered};
ghost use Rattle.value_store.specs.Plain.{measure_of, saturated};

use serde_json::{Map, Value};

/// The size and the depth of a value, each capped at the greatest number of 64 bits.
#[derive(Clone, Copy, Debug, PartialEq, Eq)]
pub(crate) struct Measure {
    pub(crate) size: u64,
    pub(crate) depth: u64,
}

impl Measure {
    // The measure of a value without parts.
    fn of_size(size: u64) -> Measure
        ensures { result ≡ record { size = size; depth = 0 } }
    {
        Measure { size, depth: 0 }
    }

    // The measure of a list or map with one more part.
    fn with_part(self, part: Measure) -> Measure
        ensures { result ≡ record { size = saturated (self.size + part.size); depth = max self.depth (saturated (part.depth + 1)) } }
    {
        Measure {
            size: self.size.saturating_add(part.size),
            depth: self.depth.max(part.depth.saturating_add(1)),
        }
    }

    // The measure of a map with one more key.
    fn with_key(self, key: &str) -> Measure
        ensures { result ≡ record { size = saturated (self.size + (1 + length key.now)); depth = self.depth } }
    {
        Measure {
            size: self.size.saturating_add(1).saturating_add(key.len() as u64),
            depth: self.depth,
        }
    }
}

/// The size and the depth of a document's value, if each of its numbers is a signed 64-bit integer. The recursion is
/// as deep as the document. `serde_json` keeps the keys of an object in order.
#[cycle(measure_document)]
#[tactic(auto, unfolding(crate::specs::Plain::measure_of))]
pub(crate) fn measure_document(value: &Value) -> Option<Measure>
    ensures measure { result ≡ measure_of (view value.now) }
    ensures ordered { OnSome result (IsDocumentOrdered (view value.now)) }
{
    match value {
        Value::Null => Some(Measure::of_size(1)),
        Value::Bool(_) => Some(Measure::of_size(1)),
        Value::Number(n) => match n.as_i64() {
            Some(_) => Some(Measure::of_size(1)),
            None => None,
        },
        Value::String(text) => Some(Measure::of_size(1u64.saturating_add(text.len() as u64))),
        Value::Array(items) => measure_items(items),
        Value::Object(members) => measure_members(members),
    }
}

#[cycle(measure_document)]
#[tactic(auto, using(crate::proofs::Ascending::members_ascend, crate::proofs::Measures::items_end, crate::proofs::Measures::items_fail, crate::proofs::Measures::items_step, crate::proofs::Measures::members_end, crate::proofs::Measures::members_fail, crate::proofs::Measures::members_step, std::proofs::lemmas::List::drop_all, std::proofs::lemmas::List::drop_more))]
fn measure_items(items: &Vec<Value>) -> Option<Measure>
    ensures measure { result ≡ measure_of (array (items_view items.now.items)) }
    ensures ordered { OnSome result (IsDocumentOrdered (array (items_view items.now.items))) }
{
    let mut all = Measure { size: 1, depth: 1 };
    for item in items {
        let part = measure_document(item)?;
        all = all.with_part(part);
    }
    Some(all)
}

#[cycle(measure_document)]
#[tactic(auto, using(crate::proofs::Ascending::members_ascend, crate::proofs::Measures::items_end, crate::proofs::Measures::items_fail, crate::proofs::Measures::items_step, crate::proofs::Measures::members_end, crate::proofs::Measures::members_fail, crate::proofs::Measures::members_step, std::proofs::lemmas::List::drop_all, std::proofs::lemmas::List::drop_more))]
fn measure_members(members: &Map<String, Value>) -> Option<Measure>
    ensures measure { result ≡ measure_of (object (members_view members.now.entries)) }
    ensures ordered { OnSome result (IsDocumentOrdered (object (members_view members.now.entries))) }
{
    let mut all = Measure { size: 1, depth: 1 };
    for (key, member) in members.iter() {
        let part = measure_document(member)?;
        all = all.with_part(part).with_key(key.as_str());
    }
    Some(all)
}
