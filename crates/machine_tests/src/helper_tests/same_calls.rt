//! The same random calls, drawn from a seed, on the table of flat cells and on the plain table.

mod drawing;
mod kind;
mod numbers;

use crate::helper_tests::memory_of_constants;
use crate::table_tests::{documents, json_of};
use drawing::{Call, drawn};
use guest_memory::Guest;
use helper_table::{HelperEnd, call};
use numbers::Numbers;
use std::alloc::{AllocError, Global};
use std::test::Fail;
use value_store::{PlainTable, TableError, ValueStore};
use value_table::Table;

/// Each round starts with new tables, since the plain one keeps a separate copy of a shared part for each use.
const ROUNDS: u64 = 10;

/// The number of calls in a round.
const CALLS: u64 = 1_000;

const ROOTS: [&str; 5] = [
    "{\"k\":[1,\"t\",{}],\"t\":{\"é\":-1}}",
    "null",
    "{}",
    "null",
    "{\"uid\":\"u1\"}",
];

/// The two tables.
#[derive(Drop)]
struct Tables {
    plain: PlainTable,
    cells: Table,
}

/// Both tables, if both were made.
fn both(
    plain: Result<PlainTable, TableError>,
    cells: Result<Table, TableError>,
) -> Result<Tables, TableError> {
    let plain = plain?;
    let cells = cells?;
    Ok(Tables { plain, cells })
}

/// Both tables, with the same roots.
fn of_roots(alloc: Global) -> Result<Tables, Fail> {
    let roots = documents(alloc, ROOTS)?;
    let plain = PlainTable::of_roots(alloc, &roots);
    Ok(both(plain, Table::of_roots(alloc, &roots))?)
}

fn on_plain(
    (id, [a, b, c]): Call,
    table: &mut PlainTable,
    memory: &Guest,
) -> Result<HelperEnd, AllocError> {
    call(id, [a, b, c, 0, 0], table, memory)
}

fn on_cells(
    (id, [a, b, c]): Call,
    table: &mut Table,
    memory: &Guest,
) -> Result<HelperEnd, AllocError> {
    call(id, [a, b, c, 0, 0], table, memory)
}

/// Whether both tables have the same number of values and the same charge.
fn are_as_full(tables: &Tables) -> bool {
    tables.cells.len() == tables.plain.len() && tables.cells.charge() == tables.plain.charge()
}

/// Whether a call ends with the same word or fault on both tables, and leaves the same number of values and charge.
fn ends_alike(tables: &mut Tables, made: Call, memory: &Guest) -> Result<bool, AllocError> {
    let expected = on_plain(made, &mut tables.plain, memory)?;
    let end = on_cells(made, &mut tables.cells, memory)?;
    Ok(end == expected && are_as_full(tables))
}

/// The number of a round's calls that end equally on both tables.
fn alike(tables: &mut Tables, numbers: &mut Numbers, memory: &Guest) -> Result<u64, AllocError> {
    let mut alike = 0u64;
    for _ in 0..CALLS {
        let made = drawn(&tables.plain, numbers);
        if ends_alike(tables, made, memory)? {
            alike = alike.wrapping_add(1);
        }
    }
    Ok(alike)
}

/// The depth of the value at a reference, if there is one.
fn depth_at<V: ValueStore>(table: &V, h: u64) -> Option<u64> {
    if h < table.len() {
        Some(table.depth(h))
    } else {
        None
    }
}

/// Whether both tables have the same value at a reference.
fn is_same(tables: &Tables, h: u64) -> Result<bool, Fail> {
    let expected = json_of(&tables.plain, h)?;
    let json = json_of(&tables.cells, h)?;
    Ok(
        json.as_str() == expected.as_str()
            && tables.cells.at(h) == tables.plain.at(h)
            && tables.cells.text(h) == tables.plain.text(h)
            && depth_at(&tables.cells, h) == depth_at(&tables.plain, h),
    )
}

/// Whether both tables have the same values and charge.
fn are_same(tables: &Tables) -> Result<bool, Fail> {
    for h in 0..tables.plain.len() {
        if !is_same(tables, h)? {
            return Ok(false);
        }
    }
    Ok(are_as_full(tables))
}

/// The number of a round's calls that end equally, or 0 if the tables differ
/// afterwards, and the number of values after them.
fn round(alloc: Global, numbers: &mut Numbers) -> Result<(u64, u64), Fail> {
    let mut tables = of_roots(alloc)?;
    let memory = memory_of_constants(alloc)?;
    let calls = alike(&mut tables, numbers, &memory)?;
    let calls = if are_same(&tables)? { calls } else { 0 };
    Ok((calls, tables.plain.len()))
}

/// The number of calls of all rounds that end equally, and the number of values after them.
fn rounds(alloc: Global) -> Result<(u64, u64), Fail> {
    let mut numbers = Numbers(0x9e37_79b9_7f4a_7c15);
    let (mut calls, mut values) = (0u64, 0u64);
    for _ in 0..ROUNDS {
        let (alike, left) = round(alloc, &mut numbers)?;
        calls = calls.wrapping_add(alike);
        values = values.wrapping_add(left);
    }
    Ok((calls, values))
}

#[test]
fn both_tables_answer_alike(rt: HostRuntime) -> Result<(), Fail> {
    let (calls, values) = rounds(rt.alloc())?;
    assert!(rt; calls == 10_000, "only {calls} calls");
    assert!(rt; values > 3_000, "only {values} values");
    Ok(())
}
