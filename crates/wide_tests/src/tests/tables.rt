//! Params with a table of indices beside them.

use serde_json::Value;
use std::alloc::Global;
use std::test::Fail;
use value_store::ValueStore;
use value_table::Table;
use wide_tables::wrapped;

/// A row for each table: its name, the object, the params, and the text of what is placed for the params.
#[rattlefmt::skip]
const PLACED: [(&str, &str, &str, &str); 4] = [
    ("no params", "{}", "null",
        "{\"t\":{\"n\":[0,1,2,3,4,5,6,7,8,9,10,11,12,13,14,15]},\"v\":null}"),
    ("params", "{}", "{\"max\":5}",
        "{\"t\":{\"n\":[0,1,2,3,4,5,6,7,8,9,10,11,12,13,14,15]},\"v\":{\"max\":5}}"),
    ("17 items in the object", "{\"a\":[[1,1,1,1,1,1,1,1,1,1,1,1,1,1,1,1,1]]}", "{}",
        "{\"t\":{\"n\":[0,1,2,3,4,5,6,7,8,9,10,11,12,13,14,15,16]},\"v\":{}}"),
    ("18 items in the params", "{\"a\":[1]}", "{\"a\":[1,1,1,1,1,1,1,1,1,1,1,1,1,1,1,1,1,1]}",
        "{\"t\":{\"n\":[0,1,2,3,4,5,6,7,8,9,10,11,12,13,14,15,16,17]},\"v\":{\"a\":[1,1,1,1,1,1,1,1,1,1,1,1,1,1,1,1,1,1]}}"),
];

/// The table of these roots. The others are null.
fn table_of(alloc: Global, object: &str, params: &str) -> Result<Table, Fail> {
    let roots = [
        Value::from_str(alloc, object)?,
        Value::Null,
        Value::from_str(alloc, params)?,
        Value::Null,
        Value::Null,
    ];
    Ok(Table::of_roots(alloc, &roots)?)
}

/// The text of a value of the table.
fn text_at(table: &Table, h: u64) -> Result<String, Fail> {
    if h < table.len() {
        return Ok(table.json(h)?);
    }
    Err("no such reference")?
}

/// Whether this is placed for the params, and the object stays.
fn is_placed(alloc: Global, object: &str, params: &str, wanted: &str) -> Result<bool, Fail> {
    let placed = wrapped(table_of(alloc, object, params)?)?;
    let stays = text_at(&placed, 4)?.as_str() == object;
    Ok(stays && text_at(&placed, 6)?.as_str() == wanted)
}

#[test]
fn places_indices(rt: HostRuntime) -> Result<(), Fail> {
    for (name, object, params, wanted) in PLACED {
        assert!(rt;
            is_placed(rt.alloc(), object, params, wanted)?,
            "row {name}"
        );
    }
    Ok(())
}
