//! Lookup in arrays and objects. The members of an object are in byte order of their keys.

ghost use Rattle.std.specs.Prelude.{◌≡◌, ◌<◌, ◌^◌, length, slice_get, string_bytes, option_map};
ghost use Rattle.serde_json.specs.View.{view, items_view, members_view};
ghost use Rattle.value_store.specs.Value.{keys_of, list_of};
ghost use Rattle.value_store.specs.Lookup.{has_key, place_of_key};
ghost use Rattle.value_store.specs.Plain.{plain_items, plain_entries, nth_member};

use serde_json::{Map, Value};

/// The number of items of a list.
#[tactic(auto, using(crate::proofs::Parts::item_count))]
pub(crate) fn item_count(items: &Vec<Value>) -> u64
    ensures count { result ≡ length (list_of (plain_items (items_view items.now.items))) }
    ensures short { result < 2 ^ 63 }
{
    items.len() as u64
}

/// The number of entries of a map.
#[tactic(auto, using(crate::proofs::Parts::member_count))]
pub(crate) fn member_count(members: &Map<String, Value>) -> u64
    ensures count { result ≡ length (keys_of (plain_entries (members_view members.now.entries))) }
    ensures short { result < 2 ^ 63 }
{
    members.len() as u64
}

/// The member at a position, counted from 0.
fn member_at(members: &Map<String, Value>, place: u64) -> Option<(&String, &Value)>
    ensures { option_map (λ m. (string_bytes m.0.now, view m.1.now)) result ≡ nth_member place (members_view members.now.entries) }
{
    let mut left = place;
    for (key, member) in members.iter() {
        if left == 0 {
            return Some((key, member));
        }
        left -= 1;
    }
    None
}

/// The value at a position.
pub(crate) fn part_at(members: &Map<String, Value>, place: u64) -> Option<&Value>
    ensures { option_map (λ v. view v.now) result ≡ option_map (λ m. m.1) (nth_member place (members_view members.now.entries)) }
{
    match member_at(members, place) {
        Some((_key, member)) => Some(member),
        None => None,
    }
}

/// The key at a position.
pub(crate) fn key_at(members: &Map<String, Value>, place: u64) -> Option<&str>
    ensures { option_map (λ k. k.now) result ≡ slice_get (keys_of (plain_entries (members_view members.now.entries))) place }
{
    match member_at(members, place) {
        Some((key, _member)) => Some(key.as_str()),
        None => None,
    }
}

/// The position of a key, if the object has it.
pub(crate) fn place_in(members: &Map<String, Value>, key: &[u8]) -> Option<u64>
    ensures { result ≡ place_of_key key.now (plain_entries (members_view members.now.entries)) }
{
    let mut place = 0;
    for (own, _member) in members.iter() {
        if own.as_bytes() == key {
            return Some(place);
        }
        place += 1;
    }
    None
}

/// Whether the object has the key.
#[tactic(auto, using(crate::proofs::Places::has_key_place))]
pub(crate) fn has_member(members: &Map<String, Value>, key: &[u8]) -> bool
    ensures { result ≡ has_key key.now (plain_entries (members_view members.now.entries)) }
{
    place_in(members, key).is_some()
}
