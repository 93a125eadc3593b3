//! The members of an object that were read so far.

ghost use Rattle.std.specs.Prelude.{◌≡◌, [], OnOk, IfOk};
ghost use Rattle.std.specs.BTreeMap.{insert_entry};
ghost use Rattle.review_tables.specs.Members.{inserted, str_cmp, TakesValue};

use crate::members::{Members, key_order};
use crate::placed::Placed;
use std::alloc::{AllocError, Global};
use std::cmp::Ordering;
use std::marker::Model;

/// The number of members for which the first one reserves capacity.
const FIRST: usize = 16;

/// The members so far, as they were read. They are sorted once, at the end.
#[derive(Drop)]
pub(crate) struct FoundMembers<'a> {
    members: Vec<(&'a str, Option<Placed>)>,
}

impl<'a> Model for FoundMembers<'a> {
    ghost use Rattle.std.specs.Prelude.{[]};
    ghost use Rattle.review_tables.specs.Members.{ReadMembers, inserted};

    ghost Value = { ReadMembers };

    ghost view = { λ m. record { entries = inserted [] m.members.items } };
}

impl<'a> FoundMembers<'a> {
    /// No members.
    pub(crate) fn new(alloc: Global) -> FoundMembers<'a>
        ensures { result.entries ≡ [] }
    {
        FoundMembers {
            members: Vec::new(alloc),
        }
    }

    /// Adds a member. If the key is there, its value is replaced.
    #[inline(always)]
    pub(crate) fn insert(&mut self, key: &'a str, value: Option<Placed>) -> Result<(), AllocError>
        ensures { OnOk result (self.new.entries ≡ insert_entry str_cmp self.old.entries key.entry value) }
    {
        make_room(&mut self.members)?;
        self.members.push((key, value))?;
        Ok(())
    }

    /// The members in the order of their keys.
    pub(crate) fn finish(self) -> Result<Members<'a>, AllocError>
        ensures { IfOk result (λ m. m.entries ≡ self.entry.entries) }
    {
        let FoundMembers { mut members } = self;
        members.sort_by(by_key)?;
        members.dedup_by(replaces);
        Ok(Members::of(members))
    }
}

// The order of two members.
fn by_key<'a>(a: &(&'a str, Option<Placed>), b: &(&'a str, Option<Placed>)) -> Ordering
    ensures { result ≡ str_cmp a.now.0 b.now.0 }
{
    key_order(a.0, b.0)
}

// Whether a member has the key of the one before it, which then takes its value.
fn replaces<'a>(later: &mut (&'a str, Option<Placed>), kept: &mut (&'a str, Option<Placed>)) -> bool
    ensures { TakesValue later.old kept.old result later.new kept.new }
{
    if key_order(later.0, kept.0).is_eq() {
        kept.1 = later.1;
        return true;
    }
    false
}

// Reserves capacity for the first members.
#[inline(always)]
fn make_room(members: &mut Vec<(&str, Option<Placed>)>) -> Result<(), AllocError>
    ensures { members.new.items ≡ members.old.items }
{
    if members.is_empty() {
        return members.reserve(FIRST);
    }
    Ok(())
}
