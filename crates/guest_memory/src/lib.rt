//! The memory of a BPF program: regions of bytes at fixed addresses, read and written by the machine.
#![tactic(auto)]

mod answer;
mod fault;
mod guest;
pub mod laws;
mod page;
mod page_span;
mod pages;
mod region;
mod regions;
mod size;
mod words;
mod write_error;

pub use fault::Fault;
pub use guest::{CONSTANTS, Guest, SCRATCH, STACK, VERDICT};
pub use regions::Regions;
pub use size::Size;
pub use write_error::WriteError;
