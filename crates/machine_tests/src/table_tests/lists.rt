//! Lists whose items are stored in place, or are shared.

use crate::table_tests::calls::{equal, joined, member, pushed};
use crate::table_tests::{NULLS, json_of, table_of};
use std::alloc::Global;
use std::test::Fail;
use value_store::{Shape, ValueStore};

/// The list with the value appended.
fn with_item<V: ValueStore>(table: &mut V, l: u64, x: u64) -> Result<u64, Fail> {
    match pushed(table, l, x)? {
        Some(list) => Ok(list),
        None => Err("no list and item")?,
    }
}

/// The list that contains a value twice.
fn twice<V: ValueStore>(table: &mut V, x: u64) -> Result<u64, Fail> {
    let empty = table.new_list()?;
    let one = with_item(table, empty, x)?;
    with_item(table, one, x)
}

/// A list of 250 levels, each contained twice in the next, with an int in the
/// deepest: its text would contain 2^250 of them.
fn shared<V: ValueStore>(table: &mut V, deepest: i64) -> Result<u64, Fail> {
    let mut part = table.place_int(deepest)?;
    for _ in 0..250 {
        part = twice(table, part)?;
    }
    Ok(part)
}

/// Ten of these lists, with the ints 1 to 10.
fn ten_shared<V: ValueStore>(table: &mut V) -> Result<u64, Fail> {
    let mut list = table.new_list()?;
    for deepest in 1..=10 {
        let item = shared(table, deepest)?;
        list = with_item(table, list, item)?;
    }
    Ok(list)
}

/// Whether the value's text is refused.
fn is_unwritable<V: ValueStore>(table: &V, h: u64) -> bool {
    h < table.len() && table.json(h).is_err()
}

/// An empty list, to whose newest version `true` is appended 10,000 times.
fn often_pushed<V: ValueStore>(table: &mut V) -> Result<u64, Fail> {
    let mut list = table.new_list()?;
    for _ in 0..10_000 {
        list = with_item(table, list, 3)?;
    }
    Ok(list)
}

/// The empty list, joined with itself 70 times.
fn often_joined<V: ValueStore>(table: &mut V) -> Result<u64, Fail> {
    let mut list = table.new_list()?;
    for _ in 0..70 {
        match joined(table, list, list)? {
            Some(both) => list = both,
            None => Err("no lists")?,
        }
    }
    Ok(list)
}

/// Whether lists that were built separately are found equal by their parts, and have no text.
fn compares_shared<V: ValueStore>(table: &mut V) -> Result<bool, Fail> {
    let first = shared(table, 1)?;
    let same = shared(table, 1)?;
    let other = shared(table, 2)?;
    let apart = equal(table, first, other) == Some(false);
    let equals = equal(table, first, same) == Some(true);
    let again = equal(table, same, other) == Some(false);
    Ok(apart && equals && again && is_unwritable(table, first))
}

/// Whether a list of such lists contains the one that is its last item, and not another.
fn finds_shared<V: ValueStore>(table: &mut V) -> Result<bool, Fail> {
    let list = ten_shared(table)?;
    let last = shared(table, 10)?;
    let other = shared(table, 11)?;
    Ok(member(table, last, list) == Some(true) && member(table, other, list) == Some(false))
}

/// Whether the newest list has all items, and an earlier one has half of them.
fn has_pushed<V: ValueStore>(table: &mut V) -> Result<bool, Fail> {
    let last = often_pushed(table)?;
    let lengths = matches!(table.at(10_009), Some(Shape::List(10_000)))
        && matches!(table.at(5_009), Some(Shape::List(5_000)));
    Ok(lengths && last == 10_009 && table.len() == 10_010)
}

/// Whether the text of the joined list is that of the empty list.
fn has_joined<V: ValueStore>(table: &mut V) -> Result<bool, Fail> {
    let list = often_joined(table)?;
    Ok(json_of(table, list)?.as_str() == "[]")
}

/// What is built in a table.
#[derive(Copy, Clone)]
enum Case {
    Equality,
    Members,
    Pushes,
    Joins,
}

fn stands<V: ValueStore>(table: &mut V, case: Case) -> Result<bool, Fail> {
    match case {
        Case::Equality => compares_shared(table),
        Case::Members => finds_shared(table),
        Case::Pushes => has_pushed(table),
        Case::Joins => has_joined(table),
    }
}

/// Whether it holds for the table of five null roots.
fn nulls_stand(alloc: Global, case: Case) -> Result<bool, Fail> {
    let mut table = table_of(alloc, NULLS)?;
    stands(&mut table, case)
}

/// Lists that were built separately are compared in as many steps as there are lists,
/// not as there are ints in their texts.
#[test]
fn equal_with_shared_parts(rt: HostRuntime) -> Result<(), Fail> {
    assert!(rt; nulls_stand(rt.alloc(), Case::Equality)?);
    Ok(())
}

#[test]
fn members_with_shared_parts(rt: HostRuntime) -> Result<(), Fail> {
    assert!(rt; nulls_stand(rt.alloc(), Case::Members)?);
    Ok(())
}

#[test]
fn ten_thousand_items(rt: HostRuntime) -> Result<(), Fail> {
    assert!(rt; nulls_stand(rt.alloc(), Case::Pushes)?);
    Ok(())
}

/// The text of a joined list has only the length of that text.
#[test]
fn empty_lists_joined(rt: HostRuntime) -> Result<(), Fail> {
    assert!(rt; nulls_stand(rt.alloc(), Case::Joins)?);
    Ok(())
}
