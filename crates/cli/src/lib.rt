//! What both programs share: their common arguments, the refusals with their lines on standard
//! error, and the end of a program.
#![tactic(auto)]

mod arguments;
mod ending;
mod given_files;
mod limits;
mod lines;
mod parsing;
mod refusal;
pub mod rows;
mod values;
mod wide_lines;

pub use arguments::{
    option_argument, reads_argument, required_option_argument, steps_argument, with_documents,
};
pub use ending::{exit_with, texts_of};
pub use given_files::{read_given, read_named};
pub use lines::{LONGEST_LINE, RefusalLine, refusal_line};
pub use parsing::parse;
pub use refusal::Refusal;
pub use values::{name_in, number_in, reads_in, steps_in, text_in, text_or_empty};
pub use wide_lines::{add_number, add_policy, add_wide, add_wide_cause, wide_line};
