//! Runs of a machine that can be shown at each of their places, and searched in both directions.
#![tactic(auto)]

mod checkpoint;
mod checkpoints;
mod emulator;
mod history;
pub mod laws;
mod past;
mod replay;
mod search;
mod stop;
mod stops;

pub use emulator::Emulator;
pub use history::History;
pub use past::Past;
