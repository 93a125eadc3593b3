//! What expressions of CEL mean as API servers evaluate them, with optional values and macros of two names.
#![tactic(auto)]

mod function;
mod laws;

pub use function::{Function, Method, Qualified};
pub use laws::rows_stand;
