//! Code of expressions, run.

mod meanings;
mod programs;
mod refusals;
mod running;
