//! Regular expressions that mean the same to API servers (RE2) and to the `regex` crate.
#![tactic(auto)]

mod bracket;
mod count;
mod escape;
mod flags;
mod frame;
mod item;
mod laws;
mod lexer;
mod measure;
mod opening;
mod pattern;
mod pattern_error;
mod place;
mod point;
mod purpose;
mod reader;
mod repeat;
mod set;
mod source;
mod syntax;
mod writer;

pub use flags::Flags;
pub use item::Item;
pub use laws::{
    computes_outcomes, outcomes_are_unique, refused_rows_hold, searched_rows_hold, taken_rows_hold,
    written_rows_hold,
};
pub use pattern::Pattern;
pub use pattern_error::PatternError;
pub use purpose::Purpose;
pub use repeat::Repeat;
pub use set::Set;
pub use source::{PATTERN_LIMIT, read};
pub use syntax::Syntax;
pub use writer::written;
