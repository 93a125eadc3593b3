//! Definitions that the tests share.

use serde_json::Value;
use std::alloc::Global;
use std::process::Abort;
use value_table::Table;

mod counting;
mod doubles;
mod errors;
mod histories;
mod kept_images;
mod sessions;
mod talking;
mod verdicts;

/// Asserts that all of these rows are right, of which so many come before the first that is not.
pub fn assert_rows(rt: &impl Abort, right: usize, rows: usize) {
    assert!(rt; right == rows, "row {right} of {rows}");
}

/// Five null roots.
pub fn nulls() -> [Value; 5] {
    Default::default()
}

/// The table of five null roots, if there was memory for it.
pub fn null_table(alloc: Global) -> Option<Table> {
    Table::of_roots(alloc, &nulls()).ok()
}
