//! The static kinds of wide expressions.
#![tactic(auto)]

mod kind;
mod laws;
mod rows;

pub use kind::{Kind, ValueKind};
pub use laws::kinds_hold;
pub use rows::{binary_kind, joined_kind, literal_kind, unary_kind};
