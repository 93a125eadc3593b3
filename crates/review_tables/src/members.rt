//! The members of an object that was read.

ghost use Rattle.std.specs.Prelude.{◌≡◌, option_copied};
ghost use Rattle.std.specs.BTreeMap.{is_at};
ghost use Rattle.std.specs.Cmp.Lexicographic.{slice_cmp};
ghost use Rattle.std.specs.List.Sorted.{IsStrictlySortedBy};
ghost use Rattle.std.specs.Map.{keys_of, lookup, remove_entry};
ghost use Rattle.std.specs.Ordering.{nat_cmp};
ghost use Rattle.review_tables.specs.Members.{key_at, str_cmp, PlaceIs};

use crate::placed::Placed;
use std::cmp::Ordering;
use std::marker::Model;

/// Members in the order of their keys.
#[derive(Drop)]
pub(crate) struct Members<'a> {
    entries: Vec<(&'a str, Option<Placed>)>,
}

impl<'a> Model for Members<'a> {
    ghost use Rattle.std.specs.List.Sorted.{IsStrictlySortedBy};
    ghost use Rattle.std.specs.Map.{keys_of};
    ghost use Rattle.review_tables.specs.Members.{ReadMembers, str_cmp};

    ghost Value = { ReadMembers };

    ghost view = { λ m. record { entries = m.entries.items } };

    ghost invariant = { λ m. IsStrictlySortedBy str_cmp (keys_of m.entries.items) };
}

impl<'a> Members<'a> {
    /// These members, which are in the order of their keys.
    pub(crate) fn of(members: Vec<(&'a str, Option<Placed>)>) -> Members<'a>
        requires { IsStrictlySortedBy str_cmp (keys_of members.items) }
        ensures { result.entries ≡ members.entry.items }
    {
        Members { entries: members }
    }

    /// The members in the order of their keys.
    pub(crate) fn entries(&self) -> &[(&'a str, Option<Placed>)]
        ensures value { result.now ≡ self.now.entries }
        ensures ordered { IsStrictlySortedBy str_cmp (keys_of result.now) }
    {
        &self.entries[..]
    }

    /// The value of a key.
    pub(crate) fn get(&self, key: &str) -> Option<&Option<Placed>>
        ensures { option_copied result ≡ lookup (is_at (key_at key.now)) self.now.entries }
    {
        match place(&self.entries[..], key) {
            Some(at) => Some(&self.entries[at].1),
            None => None,
        }
    }

    /// Removes the member with a key, and returns its value.
    pub(crate) fn remove(&mut self, key: &str) -> Option<Option<Placed>>
        ensures value { result ≡ lookup (is_at (key_at key.now)) self.old.entries }
        ensures entries { self.new.entries ≡ remove_entry (is_at (key_at key.now)) self.old.entries }
    {
        match place(&self.entries[..], key) {
            Some(at) => {
                let (_, value) = self.entries.remove(at);
                Some(value)
            }
            None => None,
        }
    }
}

// Where a key is, if it is there.
fn place(entries: &[(&str, Option<Placed>)], key: &str) -> Option<usize>
    ensures { PlaceIs (key_at key.now) entries.now result }
{
    for i in 0..entries.len() {
        if key_order(key, entries[i].0).is_eq() {
            return Some(i);
        }
    }
    None
}

/// The order of two keys. The first bytes of most keys differ.
pub(crate) fn key_order(key: &str, other: &str) -> Ordering
    ensures { result ≡ slice_cmp nat_cmp key.now other.now }
{
    let (a, b) = (key.as_bytes(), other.as_bytes());
    if a.len() == 0 || b.len() == 0 || a[0] == b[0] {
        return key.cmp(other);
    }
    a[0].cmp(&b[0])
}
