//! Arithmetic on words of the machine: the operations, atomic ones too, sign extension, byte swaps and comparisons.
#![tactic(auto)]

mod arithmetic;
mod arithmetic32;
mod arithmetic64;
mod atomics;
mod bytes;
mod comparing;
pub mod laws;
mod readings;
mod signs;

pub use arithmetic::{alu_result, alu32, alu64};
pub use atomics::{AtomicWords, atomic};
pub use bytes::swap;
pub use comparing::holds;
pub use signs::{immediate_word, sext};
