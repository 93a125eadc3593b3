//! Tables of reviews that were worked out by hand.

mod calls;
mod lists;

use serde_json::{Map, Value};
use std::alloc::{AllocError, Global};
use std::test::Fail;
use value_store::{PlainTable, TableError, ValueStore};
use value_table::Table;

/// Five null roots.
const NULLS: [&str; 5] = ["null", "null", "null", "null", "null"];

/// Roots that are refused, with their errors.
#[rattlefmt::skip]
const REFUSED: [([&str; 5], TableError); 9] = [
    (["1", "null", "null", "null", "null"], TableError::NotAnObject(4)),
    (["null", "null", "[]", "null", "null"], TableError::NotAnObject(6)),
    (["null", "null", "null", "null", "\"\""], TableError::NotAnObject(8)),
    (["null", "{\"a\":1.5}", "null", "null", "null"], TableError::NumberOutOfInt64(5)),
    (["null", "null", "null", "{\"a\":-0}", "null"], TableError::NumberOutOfInt64(7)),
    (["{\"a\":9223372036854775808}", "null", "null", "null", "null"], TableError::NumberOutOfInt64(4)),
    (["{\"a\":[{\"b\":-9223372036854775809}]}", "null", "null", "null", "null"], TableError::NumberOutOfInt64(4)),
    (["{\"a\":1.5}", "true", "null", "null", "null"], TableError::NumberOutOfInt64(4)),
    (["null", "true", "{\"a\":1.5}", "null", "null"], TableError::NotAnObject(5)),
];

/// Five null documents.
fn null_documents() -> [Value; 5] {
    [
        Value::Null,
        Value::Null,
        Value::Null,
        Value::Null,
        Value::Null,
    ]
}

pub(crate) fn documents(alloc: Global, texts: [&str; 5]) -> Result<[Value; 5], Fail> {
    let mut roots = null_documents();
    for i in 0..5 {
        roots[i] = Value::from_str(alloc, texts[i])?;
    }
    Ok(roots)
}

fn table_of(alloc: Global, texts: [&str; 5]) -> Result<Table, Fail> {
    let roots = documents(alloc, texts)?;
    Ok(Table::of_roots(alloc, &roots)?)
}

fn plain_table_of(alloc: Global, texts: [&str; 5]) -> Result<PlainTable, Fail> {
    let roots = documents(alloc, texts)?;
    Ok(PlainTable::of_roots(alloc, &roots)?)
}

fn refusal_of(alloc: Global, texts: [&str; 5]) -> Result<Option<TableError>, Fail> {
    let roots = documents(alloc, texts)?;
    Ok(Table::of_roots(alloc, &roots).err())
}

pub(crate) fn json_of<V: ValueStore>(table: &V, h: u64) -> Result<String, Fail> {
    if h < table.len() {
        return Ok(table.json(h)?);
    }
    Err("no such reference")?
}

fn plain_refusal_of(alloc: Global, texts: [&str; 5]) -> Result<Option<TableError>, Fail> {
    let roots = documents(alloc, texts)?;
    Ok(PlainTable::of_roots(alloc, &roots).err())
}

/// Whether both tables refuse these roots with this error.
fn are_refused(alloc: Global, texts: [&str; 5], cause: TableError) -> Result<bool, Fail> {
    let cells = refusal_of(alloc, texts)?;
    let plain = plain_refusal_of(alloc, texts)?;
    Ok(cells == Some(cause) && plain == Some(cause))
}

#[test]
fn refused_roots(rt: HostRuntime) -> Result<(), Fail> {
    for &(texts, cause) in &REFUSED {
        assert!(rt; are_refused(rt.alloc(), texts, cause)?, "{texts:?}");
    }
    Ok(())
}

/// A text of 16,777,216 bytes.
fn long_text(alloc: Global) -> Result<String, AllocError> {
    "a".repeat(alloc, 16_777_216)
}

/// An object with this text.
fn object_with(alloc: Global, text: Result<String, AllocError>) -> Result<Value, AllocError> {
    let mut object = Map::new(alloc);
    object.insert(String::from_str(alloc, "a")?, Value::String(text?))?;
    Ok(Value::Object(object))
}

/// The five documents whose first is an object with that text.
fn large_documents(alloc: Global) -> Result<[Value; 5], AllocError> {
    let mut roots = null_documents();
    roots[0] = object_with(alloc, long_text(alloc))?;
    Ok(roots)
}

/// An object with a text of 16,777,216 bytes.
#[test]
fn a_root_too_large(rt: HostRuntime) -> Result<(), Fail> {
    let roots = large_documents(rt.alloc())?;
    let cells = Table::of_roots(rt.alloc(), &roots).err();
    assert!(rt; cells == Some(TableError::RootsTooLarge));
    let plain = PlainTable::of_roots(rt.alloc(), &roots).err();
    assert!(rt; plain == Some(TableError::RootsTooLarge));
    Ok(())
}
