//! Assembles programs from text: instructions by their mnemonics, with labels for jumps.
#![tactic(auto)]

mod asm_error;
mod assembling;
mod laws;
mod lines;
mod passes;
mod text;

pub use asm_error::AsmError;
pub use assembling::assemble;
pub use laws::{
    listing_is_source, one_answer, refused_by_cause, source_is_assembled, source_rows_stand,
};
