//! CEL as API servers store it: parses a text into a tree.
#![tactic(auto)]

mod build;
mod closing;
mod faults;
mod form;
mod forming;
mod laws;
mod level;
mod limits;
mod look;
mod name;
mod operator;
mod phrase;
mod place;
mod reader;
mod refusal;
mod source;
mod wide;
mod wide_error;
mod word;

pub use laws::{one_result, one_tree, profile_is_read};
pub use source::read;
pub use wide::{Access, Macro, OptionalMacro, PairMacro, Wide};
pub use wide_error::{MacroFault, WideReadError};
