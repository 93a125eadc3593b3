//! The rules by which the lines of an input are answered.

use std::alloc::Global;

/// What decides the lines, and how long they may be.
#[derive(Drop)]
pub struct LineRules<'a, D> {
    pub alloc: Global,
    pub decider: &'a D,
    /// The most bytes of a line; a longer one is refused.
    pub max_line: u64,
}
