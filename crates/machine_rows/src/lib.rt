//! Literal rows over the definitions of the machine's crates, and laws over those of several. They are in a crate of
//! their own, so that no other crate is proved again when a row is added.
#![tactic(auto)]

mod laws;
mod rows;

pub use laws::listing_assembles_to_code;
pub use rows::{
    expression_reads_stand, helper_rows_stand, image_rows_stand, instruction_rows_stand,
    memory_rows_stand, run_rows_stand, session_rows_stand, source_rows_stand, stream_rows_stand,
    value_rows_stand, word_rows_stand,
};
