//! The machine: its state, its step and its runs.
#![tactic(auto)]

mod alu_operation;
mod condition;
mod conversions;
mod decoding;
mod flattening;
mod frame;
mod imm_branch;
pub mod laws;
mod limits;
mod machine;
mod memory_operand;
mod program;
mod reg_branch;
mod run_end;
mod slot;
mod status;
mod targets;
mod word_text;
mod words;
mod writable;

pub use frame::Frame;
pub use machine::Machine;
pub use program::Program;
pub use run_end::RunEnd;
pub use status::Status;
pub use word_text::WordText;
