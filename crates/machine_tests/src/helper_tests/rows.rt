//! Each helper with each kind of argument that its row names, and with other kinds.
use crate::helper_tests::{BASE, called, memory_of_constants, nulls};
use guest_memory::{Fault, Guest};
use helper_table::HelperEnd;
use std::alloc::{AllocError, Global};
use std::test::Fail;
use value_store::{PlainTable, ValueStore};

/// The number of a helper, its first three arguments, the word that it returns, its
/// cost, and the value that it places, as JSON.
type Row = (i32, [u64; 3], u64, u64, &'static str);

/// The calls that make the values of the rows, from reference 9 on: 1, -1, "kt", "é", "k", "t", [], [1], [1,-1], {},
/// {"k":1} and {"k":1,"é":true}. References 0 to 8 are the error, null, false, true and five nulls.
const VALUES: [(i32, [u64; 3]); 12] = [
    (3, [1, 0, 0]),
    (3, [u64::MAX, 0, 0]),
    (4, [BASE, 2, 0]),
    (4, [BASE + 2, 2, 0]),
    (4, [BASE, 1, 0]),
    (4, [BASE + 1, 1, 0]),
    (16, [0, 0, 0]),
    (17, [15, 9, 0]),
    (17, [16, 10, 0]),
    (18, [0, 0, 0]),
    (19, [18, 13, 9]),
    (19, [19, 12, 3]),
];

/// The reference of the next value that is appended.
const NEXT: u64 = 21;

/// The charge for the five nulls and these calls.
const CHARGE: u64 = 27;

/// Kinds, ints and texts.
const CONVERSIONS: [Row; 30] = [
    (1, [0, 0, 0], 0, 1, ""),
    (1, [1, 0, 0], 1, 1, ""),
    (1, [2, 0, 0], 2, 1, ""),
    (1, [9, 0, 0], 3, 1, ""),
    (1, [11, 0, 0], 4, 1, ""),
    (1, [17, 0, 0], 5, 1, ""),
    (1, [20, 0, 0], 6, 1, ""),
    (2, [9, 0, 0], 1, 1, ""),
    (2, [10, 0, 0], u64::MAX, 1, ""),
    (2, [0, 0, 0], 0, 1, ""),
    (2, [1, 0, 0], 0, 1, ""),
    (2, [3, 0, 0], 0, 1, ""),
    (2, [11, 0, 0], 0, 1, ""),
    (2, [17, 0, 0], 0, 1, ""),
    (2, [20, 0, 0], 0, 1, ""),
    (3, [7, 0, 0], NEXT, 1, "7"),
    (3, [u64::MAX, 0, 0], NEXT, 1, "-1"),
    (3, [1 << 63, 0, 0], NEXT, 1, "-9223372036854775808"),
    (4, [BASE, 2, 0], NEXT, 3, "\"kt\""),
    (4, [BASE + 2, 2, 0], NEXT, 3, "\"é\""),
    (4, [0, 0, 0], NEXT, 1, "\"\""),
    (4, [BASE + 4, 1, 0], 0, 1, ""),
    (22, [9, 0, 0], NEXT, 2, "\"1\""),
    (22, [10, 0, 0], NEXT, 3, "\"-1\""),
    (22, [0, 0, 0], 0, 1, ""),
    (22, [1, 0, 0], 0, 1, ""),
    (22, [3, 0, 0], 0, 1, ""),
    (22, [11, 0, 0], 0, 1, ""),
    (22, [17, 0, 0], 0, 1, ""),
    (22, [20, 0, 0], 0, 1, ""),
];

/// Parts, sizes and keys.
const LOOKUPS: [Row; 64] = [
    (5, [20, BASE, 1], NEXT, 1, "1"),
    (5, [20, BASE + 2, 2], 3, 1, ""),
    (5, [20, BASE + 1, 1], 0, 1, ""),
    (5, [20, BASE + 4, 1], 0, 1, ""),
    (5, [18, BASE, 1], 0, 1, ""),
    (5, [0, BASE, 1], 0, 1, ""),
    (5, [1, BASE, 1], 0, 1, ""),
    (5, [3, BASE, 1], 0, 1, ""),
    (5, [9, BASE, 1], 0, 1, ""),
    (5, [11, BASE, 1], 0, 1, ""),
    (5, [17, BASE, 1], 0, 1, ""),
    (6, [20, BASE, 1], 3, 1, ""),
    (6, [20, BASE + 1, 1], 2, 1, ""),
    (6, [20, BASE + 4, 1], 2, 1, ""),
    (6, [18, BASE, 1], 2, 1, ""),
    (6, [0, BASE, 1], 0, 1, ""),
    (6, [1, BASE, 1], 0, 1, ""),
    (6, [3, BASE, 1], 0, 1, ""),
    (6, [9, BASE, 1], 0, 1, ""),
    (6, [11, BASE, 1], 0, 1, ""),
    (6, [17, BASE, 1], 0, 1, ""),
    (7, [17, 9, 0], NEXT, 1, "-1"),
    (7, [16, 9, 0], 0, 1, ""),
    (7, [17, 10, 0], 0, 1, ""),
    (7, [20, 13, 0], NEXT, 1, "1"),
    (7, [20, 12, 0], 3, 1, ""),
    (7, [20, 14, 0], 0, 1, ""),
    (7, [17, 13, 0], 0, 1, ""),
    (7, [20, 9, 0], 0, 1, ""),
    (7, [17, 0, 0], 0, 1, ""),
    (7, [0, 9, 0], 0, 1, ""),
    (7, [1, 9, 0], 0, 1, ""),
    (7, [3, 9, 0], 0, 1, ""),
    (7, [9, 9, 0], 0, 1, ""),
    (7, [11, 9, 0], 0, 1, ""),
    (8, [11, 0, 0], NEXT, 1, "2"),
    (8, [12, 0, 0], NEXT, 1, "1"),
    (8, [15, 0, 0], NEXT, 1, "0"),
    (8, [17, 0, 0], NEXT, 1, "2"),
    (8, [20, 0, 0], NEXT, 1, "2"),
    (8, [0, 0, 0], 0, 1, ""),
    (8, [1, 0, 0], 0, 1, ""),
    (8, [3, 0, 0], 0, 1, ""),
    (8, [9, 0, 0], 0, 1, ""),
    (20, [17, 0, 0], NEXT, 1, "1"),
    (20, [17, 1, 0], NEXT, 1, "-1"),
    (20, [17, 2, 0], 0, 1, ""),
    (20, [20, 0, 0], NEXT, 1, "\"k\""),
    (20, [20, 1, 0], NEXT, 1, "\"é\""),
    (20, [20, 2, 0], 0, 1, ""),
    (20, [0, 0, 0], 0, 1, ""),
    (20, [1, 0, 0], 0, 1, ""),
    (20, [3, 0, 0], 0, 1, ""),
    (20, [9, 0, 0], 0, 1, ""),
    (20, [11, 0, 0], 0, 1, ""),
    (21, [15, 0, 0], 0, 1, ""),
    (21, [17, 0, 0], 2, 1, ""),
    (21, [18, 0, 0], 0, 1, ""),
    (21, [20, 0, 0], 2, 1, ""),
    (21, [0, 0, 0], u64::MAX, 1, ""),
    (21, [1, 0, 0], u64::MAX, 1, ""),
    (21, [3, 0, 0], u64::MAX, 1, ""),
    (21, [9, 0, 0], u64::MAX, 1, ""),
    (21, [11, 0, 0], u64::MAX, 1, ""),
];

/// Comparisons, which return bools.
const COMPARISONS: [Row; 91] = [
    (9, [1, 4, 0], 3, 1, ""),
    (9, [1, 2, 0], 2, 1, ""),
    (9, [2, 2, 0], 3, 1, ""),
    (9, [2, 3, 0], 2, 1, ""),
    (9, [9, 9, 0], 3, 1, ""),
    (9, [9, 10, 0], 2, 1, ""),
    (9, [11, 11, 0], 3, 1, ""),
    (9, [13, 11, 0], 2, 1, ""),
    (9, [17, 17, 0], 3, 1, ""),
    (9, [16, 17, 0], 2, 1, ""),
    (9, [20, 20, 0], 3, 1, ""),
    (9, [19, 20, 0], 2, 1, ""),
    (9, [9, 11, 0], 2, 1, ""),
    (9, [15, 18, 0], 2, 1, ""),
    (9, [0, 0, 0], 0, 1, ""),
    (9, [0, 9, 0], 0, 1, ""),
    (9, [9, 0, 0], 0, 1, ""),
    (10, [10, 9, 0], 3, 1, ""),
    (10, [9, 10, 0], 2, 1, ""),
    (10, [13, 11, 0], 3, 1, ""),
    (10, [11, 12, 0], 3, 1, ""),
    (10, [12, 11, 0], 2, 1, ""),
    (10, [2, 3, 0], 3, 1, ""),
    (10, [3, 2, 0], 2, 1, ""),
    (10, [3, 3, 0], 2, 1, ""),
    (10, [0, 9, 0], 0, 1, ""),
    (10, [9, 0, 0], 0, 1, ""),
    (10, [1, 1, 0], 0, 1, ""),
    (10, [9, 11, 0], 0, 1, ""),
    (10, [16, 17, 0], 0, 1, ""),
    (10, [19, 20, 0], 0, 1, ""),
    (12, [11, 13, 0], 3, 1, ""),
    (12, [11, 11, 0], 3, 1, ""),
    (12, [11, 14, 0], 2, 1, ""),
    (12, [13, 11, 0], 2, 1, ""),
    (12, [0, 11, 0], 0, 1, ""),
    (12, [11, 0, 0], 0, 1, ""),
    (12, [1, 1, 0], 0, 1, ""),
    (12, [3, 3, 0], 0, 1, ""),
    (12, [9, 11, 0], 0, 1, ""),
    (12, [11, 9, 0], 0, 1, ""),
    (12, [17, 17, 0], 0, 1, ""),
    (12, [20, 20, 0], 0, 1, ""),
    (13, [11, 14, 0], 3, 1, ""),
    (13, [11, 11, 0], 3, 1, ""),
    (13, [11, 13, 0], 2, 1, ""),
    (13, [14, 11, 0], 2, 1, ""),
    (13, [0, 11, 0], 0, 1, ""),
    (13, [11, 0, 0], 0, 1, ""),
    (13, [1, 1, 0], 0, 1, ""),
    (13, [3, 3, 0], 0, 1, ""),
    (13, [9, 11, 0], 0, 1, ""),
    (13, [11, 9, 0], 0, 1, ""),
    (13, [17, 17, 0], 0, 1, ""),
    (13, [20, 20, 0], 0, 1, ""),
    (14, [11, 14, 0], 3, 1, ""),
    (14, [11, 13, 0], 3, 1, ""),
    (14, [11, 12, 0], 2, 1, ""),
    (14, [14, 11, 0], 2, 1, ""),
    (14, [0, 11, 0], 0, 1, ""),
    (14, [11, 0, 0], 0, 1, ""),
    (14, [1, 1, 0], 0, 1, ""),
    (14, [3, 3, 0], 0, 1, ""),
    (14, [9, 11, 0], 0, 1, ""),
    (14, [11, 9, 0], 0, 1, ""),
    (14, [17, 17, 0], 0, 1, ""),
    (14, [20, 20, 0], 0, 1, ""),
    (15, [9, 17, 0], 3, 1, ""),
    (15, [10, 16, 0], 2, 1, ""),
    (15, [11, 17, 0], 2, 1, ""),
    (15, [1, 17, 0], 2, 1, ""),
    (15, [17, 17, 0], 2, 1, ""),
    (15, [13, 20, 0], 3, 1, ""),
    (15, [14, 20, 0], 2, 1, ""),
    (15, [13, 18, 0], 2, 1, ""),
    (15, [0, 17, 0], 0, 1, ""),
    (15, [0, 20, 0], 0, 1, ""),
    (15, [9, 20, 0], 0, 1, ""),
    (15, [9, 0, 0], 0, 1, ""),
    (15, [9, 1, 0], 0, 1, ""),
    (15, [9, 3, 0], 0, 1, ""),
    (15, [9, 9, 0], 0, 1, ""),
    (15, [11, 11, 0], 0, 1, ""),
    (23, [2, 0, 0], 3, 1, ""),
    (23, [3, 0, 0], 2, 1, ""),
    (23, [0, 0, 0], 0, 1, ""),
    (23, [1, 0, 0], 0, 1, ""),
    (23, [9, 0, 0], 0, 1, ""),
    (23, [11, 0, 0], 0, 1, ""),
    (23, [17, 0, 0], 0, 1, ""),
    (23, [20, 0, 0], 0, 1, ""),
];

/// Texts, lists and maps that are built.
#[rattlefmt::skip]
const BUILDING: [Row; 39] = [
    (11, [11, 12, 0], NEXT, 5, "\"kté\""),
    (11, [16, 17, 0], NEXT, 4, "[1,1,-1]"),
    (11, [15, 15, 0], NEXT, 1, "[]"),
    (11, [0, 11, 0], 0, 1, ""),
    (11, [11, 0, 0], 0, 1, ""),
    (11, [1, 1, 0], 0, 1, ""),
    (11, [3, 3, 0], 0, 1, ""),
    (11, [9, 9, 0], 0, 1, ""),
    (11, [11, 17, 0], 0, 1, ""),
    (11, [17, 11, 0], 0, 1, ""),
    (11, [20, 20, 0], 0, 1, ""),
    (16, [0, 0, 0], NEXT, 1, "[]"),
    (17, [15, 1, 0], NEXT, 2, "[null]"),
    (17, [15, 3, 0], NEXT, 2, "[true]"),
    (17, [16, 10, 0], NEXT, 2, "[1,-1]"),
    (17, [15, 11, 0], NEXT, 2, "[\"kt\"]"),
    (17, [15, 17, 0], NEXT, 2, "[[1,-1]]"),
    (17, [15, 19, 0], NEXT, 2, "[{\"k\":1}]"),
    (17, [15, 0, 0], 0, 2, ""),
    (17, [0, 9, 0], 0, 2, ""),
    (17, [1, 9, 0], 0, 2, ""),
    (17, [3, 9, 0], 0, 2, ""),
    (17, [9, 9, 0], 0, 2, ""),
    (17, [11, 9, 0], 0, 2, ""),
    (17, [20, 9, 0], 0, 2, ""),
    (18, [0, 0, 0], NEXT, 1, "{}"),
    (19, [18, 13, 1], NEXT, 2, "{\"k\":null}"),
    (19, [20, 14, 17], NEXT, 2, "{\"k\":1,\"t\":[1,-1],\"é\":true}"),
    (19, [20, 13, 9], 0, 2, ""),
    (19, [18, 13, 0], 0, 2, ""),
    (19, [18, 0, 9], 0, 2, ""),
    (19, [18, 1, 9], 0, 2, ""),
    (19, [18, 9, 9], 0, 2, ""),
    (19, [0, 13, 9], 0, 2, ""),
    (19, [1, 13, 9], 0, 2, ""),
    (19, [3, 13, 9], 0, 2, ""),
    (19, [9, 13, 9], 0, 2, ""),
    (19, [11, 13, 9], 0, 2, ""),
    (19, [17, 13, 9], 0, 2, ""),
];

/// Calls that are stopped: the number is unknown, an argument is not a reference, or a
/// range is not completely in the constants.
const STOPS: [(i32, [u64; 3], Fault); 11] = [
    (0, [0, 0, 0], Fault::F5),
    (24, [0, 0, 0], Fault::F5),
    (-1, [0, 0, 0], Fault::F5),
    (1, [21, 0, 0], Fault::F6),
    (9, [9, 21, 0], Fault::F6),
    (19, [18, 13, 21], Fault::F6),
    (5, [21, 0, 1], Fault::F6),
    (5, [20, 0, 1], Fault::F3),
    (6, [20, BASE, 6], Fault::F3),
    (4, [BASE + 4, 2, 0], Fault::F3),
    (4, [BASE - 1, 1, 0], Fault::F3),
];

fn values(alloc: Global, memory: &Guest) -> Result<PlainTable, Fail> {
    let mut table = nulls(alloc)?;
    for (id, args) in &VALUES {
        called(*id, *args, &mut table, memory)?;
    }
    Ok(table)
}

/// The value after the others, as JSON.
fn next_value(alloc: Global, table: &PlainTable) -> Result<String, AllocError> {
    if table.len() == NEXT + 1 {
        table.json(NEXT)
    } else {
        Ok(String::new(alloc))
    }
}

/// A call of a helper.
#[derive(Clone, Copy)]
struct Call {
    id: i32,
    args: [u64; 3],
}

/// The end of a call, its cost, and the one value that it places, as JSON.
#[derive(Clone, Copy)]
struct Outcome<'a> {
    end: HelperEnd,
    cost: u64,
    value: &'a str,
}

/// Whether the call has this outcome on a copy of the values.
fn ends_so(
    alloc: Global,
    table: &PlainTable,
    memory: &Guest,
    call: Call,
    wanted: Outcome<'_>,
) -> Result<bool, AllocError> {
    let mut copy = table.copy()?;
    let found = called(call.id, call.args, &mut copy, memory)?;
    let charged = copy.charge().saturating_sub(CHARGE);
    let next = next_value(alloc, &copy)?;
    Ok(found == wanted.end && charged == wanted.cost && next.as_str() == wanted.value)
}

/// The number of rows before the first that fails.
fn right_rows(
    alloc: Global,
    table: &PlainTable,
    memory: &Guest,
    rows: &[Row],
) -> Result<usize, AllocError> {
    for (place, &(id, args, word, cost, value)) in rows.iter().enumerate() {
        let end = HelperEnd::Word(word);
        let wanted = Outcome { end, cost, value };
        if !ends_so(alloc, table, memory, Call { id, args }, wanted)? {
            return Ok(place);
        }
    }
    Ok(rows.len())
}

/// The number of the rows before the first that fails, on new values.
fn right_words(alloc: Global, rows: &[Row]) -> Result<usize, Fail> {
    let memory = memory_of_constants(alloc)?;
    let table = values(alloc, &memory)?;
    Ok(right_rows(alloc, &table, &memory, rows)?)
}

/// The tables of calls that return a word.
const TABLES: [(&str, &[Row]); 4] = [
    ("conversions", &CONVERSIONS),
    ("lookups", &LOOKUPS),
    ("comparisons", &COMPARISONS),
    ("building", &BUILDING),
];

#[test]
fn words(rt: HostRuntime) -> Result<(), Fail> {
    for (name, rows) in &TABLES {
        let right = right_words(rt.alloc(), rows)?;
        assert!(rt; right == rows.len(), "row {right} of {name}");
    }
    Ok(())
}

/// The number of calls before the first that is not stopped by its fault, or that changes the values or the charge.
fn right_faults(
    alloc: Global,
    table: &PlainTable,
    memory: &Guest,
    rows: &[(i32, [u64; 3], Fault)],
) -> Result<usize, AllocError> {
    for (place, &(id, args, fault)) in rows.iter().enumerate() {
        let end = HelperEnd::Stop(fault);
        let wanted = Outcome {
            end,
            cost: 0,
            value: "",
        };
        if !ends_so(alloc, table, memory, Call { id, args }, wanted)? {
            return Ok(place);
        }
    }
    Ok(rows.len())
}

/// The number of the stopped calls before the first that fails, on new values.
fn right_stops(alloc: Global) -> Result<usize, Fail> {
    let memory = memory_of_constants(alloc)?;
    let table = values(alloc, &memory)?;
    Ok(right_faults(alloc, &table, &memory, &STOPS)?)
}

#[test]
fn stops(rt: HostRuntime) -> Result<(), Fail> {
    let right = right_stops(rt.alloc())?;
    assert!(rt; right == 11, "row {right}");
    Ok(())
}
