//! Definitions that the tests share.

use cel_macros::{Core, expand};
use cel_reader::{Expr, read};
use std::alloc::{AllocError, Global};

mod errors;
mod macros;
mod measures;
mod tokens;
mod trees;
mod types;

/// The text `unit` repeated `count` times, followed by `more`.
pub fn repeated(alloc: Global, unit: &str, count: usize, more: &str) -> Result<String, AllocError> {
    let mut text = unit.repeat(alloc, count)?;
    text.push_str(more)?;
    Ok(text)
}

/// The text's tree.
fn tree(alloc: Global, text: &str) -> Option<Expr> {
    read(alloc, text).ok()
}

/// The text's expression.
pub fn core(alloc: Global, text: &str) -> Option<Core> {
    expand(alloc, tree(alloc, text)?).ok()
}

/// A line of a table of texts: the text before its broken bar, and the text after it.
pub fn cells(line: &str) -> (&str, &str) {
    line.split_once('¦').unwrap_or((line, ""))
}
