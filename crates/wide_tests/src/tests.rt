//! Definitions that the tests share.

use std::alloc::{AllocError, Global};

mod policies;
mod tables;
mod translations;
mod trees;

/// The text `unit` repeated `count` times, followed by `more`.
pub fn repeated(alloc: Global, unit: &str, count: usize, more: &str) -> Result<String, AllocError> {
    let mut text = unit.repeat(alloc, count)?;
    text.push_str(more)?;
    Ok(text)
}

/// A line of a table of texts: the text before its broken bar, and the text after it.
pub fn cells(line: &str) -> (&str, &str) {
    line.split_once('¦').unwrap_or((line, ""))
}
