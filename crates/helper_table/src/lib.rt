//! The helpers that a BPF program calls: the rows of the helper table, for any store of values and any memory.
#![tactic(auto)]

mod building;
mod call_reads;
mod calling;
mod comparisons;
mod conversions;
mod helper;
mod helper_effect;
mod helper_end;
pub mod laws;
mod lookups;
mod operands;
mod placement;
mod text_test;

pub use call_reads::reads;
pub use calling::call;
pub use helper_end::HelperEnd;
