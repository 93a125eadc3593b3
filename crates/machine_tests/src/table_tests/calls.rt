//! Calls of a table that were worked out by hand.

use crate::table_tests::{NULLS, json_of, plain_table_of, table_of};
use std::alloc::{AllocError, Global};
use std::test::Fail;
use value_store::{Shape, ValueStore};

/// A call that places a value.
#[derive(Copy, Clone)]
enum Step {
    Int(i64),
    Text(&'static str),
    List,
    Map,
    Push(u64, u64),
    Put(u64, u64, u64),
    Join(u64, u64),
    Item(u64, u64),
    Key(u64, u64),
}

use Step::{Int, Item, Join, Key, List, Map, Push, Put, Text};

/// The values that are placed after the nine of five null roots: the reference, the
/// step, and the value as JSON after all steps.
const STEPS: [(u64, Step, &str); 20] = [
    (9, Text("a"), "\"a\""),
    (10, Text("b"), "\"b\""),
    (11, Text("é"), "\"é\""),
    (12, Int(1), "1"),
    (13, Int(-2), "-2"),
    (14, List, "[]"),
    (15, Push(14, 12), "[1]"),
    (16, Push(15, 13), "[1,-2]"),
    (17, Push(15, 12), "[1,1]"),
    (18, Map, "{}"),
    (19, Put(18, 10, 12), "{\"b\":1}"),
    (20, Put(19, 9, 13), "{\"a\":-2,\"b\":1}"),
    (21, Put(19, 11, 13), "{\"b\":1,\"é\":-2}"),
    (22, Join(9, 11), "\"aé\""),
    (23, Join(16, 15), "[1,-2,1]"),
    (24, Key(20, 0), "\"a\""),
    (25, Key(21, 1), "\"é\""),
    (26, Item(16, 1), "-2"),
    (27, Join(14, 15), "[1]"),
    (28, Text("a"), "\"a\""),
];

/// Versions of a list: two of them append to the same one.
const VERSIONS: [(u64, Step, &str); 7] = [
    (9, List, "[]"),
    (10, Int(1), "1"),
    (11, Push(9, 10), "[1]"),
    (12, Int(2), "2"),
    (13, Push(11, 12), "[1,2]"),
    (14, Int(3), "3"),
    (15, Push(11, 14), "[1,3]"),
];

/// The list with the bool, the int or the list appended.
#[tactic(auto, using(crate::proofs::Looks::push_fits, crate::proofs::Looks::bool_fits, crate::proofs::Looks::list_fits))]
pub(crate) fn pushed<V: ValueStore>(
    table: &mut V,
    l: u64,
    x: u64,
) -> Result<Option<u64>, AllocError> {
    match (table.at(l), table.at(x)) {
        (Some(Shape::List(_)), Some(Shape::Bool(_))) => Ok(Some(table.push(l, x)?)),
        (Some(Shape::List(_)), Some(Shape::Int(_))) => Ok(Some(table.push(l, x)?)),
        (Some(Shape::List(_)), Some(Shape::List(_))) => Ok(Some(table.push(l, x)?)),
        _ => Ok(None),
    }
}

/// The map with the int at a key that it does not have.
#[tactic(auto, using(crate::proofs::Looks::put_fits, crate::proofs::Looks::find_fits))]
fn put<V: ValueStore>(table: &mut V, m: u64, k: u64, x: u64) -> Result<Option<u64>, AllocError> {
    let Some(Shape::Map(_)) = table.at(m) else {
        return Ok(None);
    };
    let Some(Shape::Int(_)) = table.at(x) else {
        return Ok(None);
    };
    let Some(key) = table.text(k) else {
        return Ok(None);
    };
    match table.find(m, key.as_bytes()) {
        Some(_) => Ok(None),
        None => Ok(Some(table.put(m, k, x)?)),
    }
}

/// The concatenation of two texts or two lists.
#[tactic(auto, using(crate::proofs::Looks::texts_join, crate::proofs::Looks::lists_join))]
pub(crate) fn joined<V: ValueStore>(
    table: &mut V,
    a: u64,
    b: u64,
) -> Result<Option<u64>, AllocError> {
    match (table.at(a), table.at(b)) {
        (Some(Shape::Text(_)), Some(Shape::Text(_))) => Ok(Some(table.join(a, b)?)),
        (Some(Shape::List(_)), Some(Shape::List(_))) => Ok(Some(table.join(a, b)?)),
        _ => Ok(None),
    }
}

/// The item of a list.
#[tactic(auto, using(crate::proofs::Looks::item_fits))]
fn item<V: ValueStore>(table: &mut V, l: u64, i: u64) -> Result<Option<u64>, AllocError> {
    let Some(Shape::List(count)) = table.at(l) else {
        return Ok(None);
    };
    if i < count {
        Ok(Some(table.alias(l, i)?))
    } else {
        Ok(None)
    }
}

/// The key of a map's entry.
#[tactic(auto, using(crate::proofs::Looks::key_fits))]
fn key<V: ValueStore>(table: &mut V, m: u64, i: u64) -> Result<Option<u64>, AllocError> {
    let Some(Shape::Map(count)) = table.at(m) else {
        return Ok(None);
    };
    if i < count {
        Ok(Some(table.alias_key(m, i)?))
    } else {
        Ok(None)
    }
}

/// The reference of the value that a step places.
fn placed<V: ValueStore>(table: &mut V, step: Step) -> Result<Option<u64>, AllocError> {
    match step {
        Int(n) => Ok(Some(table.place_int(n)?)),
        Text(text) => Ok(Some(table.place_text(text)?)),
        List => Ok(Some(table.new_list()?)),
        Map => Ok(Some(table.new_map()?)),
        Push(l, x) => pushed(table, l, x),
        Put(m, k, x) => put(table, m, k, x),
        Join(a, b) => joined(table, a, b),
        Item(l, i) => item(table, l, i),
        Key(m, i) => key(table, m, i),
    }
}

/// Whether two lists are equal.
#[tactic(auto, using(crate::proofs::Looks::lists_equal))]
pub(crate) fn equal<V: ValueStore>(table: &mut V, a: u64, b: u64) -> Option<bool> {
    match (table.at(a), table.at(b)) {
        (Some(Shape::List(_)), Some(Shape::List(_))) => Some(table.equal(a, b)),
        _ => None,
    }
}

/// Whether a list has a list.
#[tactic(auto, using(crate::proofs::Looks::list_in_list))]
pub(crate) fn member<V: ValueStore>(table: &mut V, x: u64, c: u64) -> Option<bool> {
    match (table.at(x), table.at(c)) {
        (Some(Shape::List(_)), Some(Shape::List(_))) => Some(table.member(x, c)),
        _ => None,
    }
}

/// The reference at which the first step places a different value.
fn first_misplaced<V: ValueStore>(
    table: &mut V,
    steps: &[(u64, Step, &str)],
) -> Result<Option<u64>, AllocError> {
    for (h, step, _) in steps {
        if placed(table, *step)? != Some(*h) {
            return Ok(Some(*h));
        }
    }
    Ok(None)
}

/// The first reference with a different value.
fn first_changed<V: ValueStore>(
    table: &V,
    steps: &[(u64, Step, &str)],
) -> Result<Option<u64>, Fail> {
    for (h, _, json) in steps {
        if json_of(table, *h)?.as_str() != *json {
            return Ok(Some(*h));
        }
    }
    Ok(None)
}

/// Whether each step places its value, and no value has changed after all of them.
fn places_all<V: ValueStore>(table: &mut V, steps: &[(u64, Step, &str)]) -> Result<bool, Fail> {
    let misplaced = first_misplaced(table, steps)?;
    let changed = first_changed(table, steps)?;
    Ok(misplaced.is_none() && changed.is_none())
}

fn cells_place_all(alloc: Global, steps: &[(u64, Step, &str)]) -> Result<bool, Fail> {
    let mut table = table_of(alloc, NULLS)?;
    places_all(&mut table, steps)
}

fn plain_places_all(alloc: Global, steps: &[(u64, Step, &str)]) -> Result<bool, Fail> {
    let mut table = plain_table_of(alloc, NULLS)?;
    places_all(&mut table, steps)
}

/// Each value is appended, and does not change.
#[test]
fn places(rt: HostRuntime) -> Result<(), Fail> {
    assert!(rt; cells_place_all(rt.alloc(), &STEPS)?);
    assert!(rt; plain_places_all(rt.alloc(), &STEPS)?);
    Ok(())
}

/// An earlier version of a list does not see what is appended to it later.
#[test]
fn keeps_versions_of_a_list(rt: HostRuntime) -> Result<(), Fail> {
    assert!(rt; cells_place_all(rt.alloc(), &VERSIONS)?);
    assert!(rt; plain_places_all(rt.alloc(), &VERSIONS)?);
    Ok(())
}
