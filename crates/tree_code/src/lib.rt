//! The code of CEL expressions: the instructions that compute a tree.
//!
//! What is public is for `codegen`, which collects this code, and is not part of the program's own
//! interface.
#![tactic(auto)]

mod code;
pub mod constants;
mod emit_position;
mod expressions;
mod frame_words;
mod instructions;
mod iteration;
mod kept_lists;
mod laws;
mod name_table;
mod part;
mod path;
mod texts;
mod truths;
mod whole_expression;

pub use code::Code;
pub use code::routines::passed_routine;
pub use laws::{
    code_gives, code_is_short, costs_stand, expression_gives, routine_gives, routine_is_passed,
    texts_stay, typed_has_code, variables_join,
};
pub use name_table::NameTable;
pub use whole_expression::whole_code;
