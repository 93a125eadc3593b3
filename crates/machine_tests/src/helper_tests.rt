//! Calls of helpers on the plain store and plain memory.

mod rows;
mod same_calls;
mod searches;

use guest_memory::{Guest, Regions};
use helper_table::{HelperEnd, call};
use std::alloc::{AllocError, Global};
use value_store::{PlainTable, TableError, ValueStore};

/// The bytes k, t, those of é, and one that is not valid in UTF-8.
const CONSTANTS: &[u8; 5] = b"kt\xc3\xa9\xff";

/// The first address of the constants.
const BASE: u64 = 0x4_0000_0000;

/// A store of five null roots: nine values, and a charge of 5.
fn nulls(alloc: Global) -> Result<PlainTable, TableError> {
    PlainTable::of_roots(
        alloc,
        &[
            Default::default(),
            Default::default(),
            Default::default(),
            Default::default(),
            Default::default(),
        ],
    )
}

/// The end of a single call.
fn once(
    id: i32,
    args: [u64; 5],
    table: &mut PlainTable,
    memory: &Guest,
) -> Result<HelperEnd, AllocError> {
    call(id, args, table, memory)
}

/// The end of a call with three arguments. If an allocation fails, the store must
/// be unchanged, and the call is repeated.
fn called(
    id: i32,
    [a, b, c]: [u64; 3],
    table: &mut PlainTable,
    memory: &Guest,
) -> Result<HelperEnd, AllocError> {
    let args = [a, b, c, 0, 0];
    let before = (table.len(), table.charge());
    match once(id, args, table, memory) {
        Ok(end) => Ok(end),
        Err(error) => {
            if (table.len(), table.charge()) != before {
                return Err(error);
            }
            once(id, args, table, memory)
        }
    }
}

/// The memory of a program with these constants.
fn memory_of_constants(alloc: Global) -> Result<Guest, AllocError> {
    Guest::of_constants(alloc, CONSTANTS)
}
