//! Debugging sessions with a machine: moves in both directions over its run, breakpoints and code listings.
#![tactic(auto)]

mod answer_text;
mod answering;
mod breakpoints;
mod command;
mod conversation;
mod inspecting;
pub mod laws;
mod limits;
mod listing;
mod moves;
mod reply;
mod sessions;
mod state_text;
mod transfer;
mod verdict;

pub use sessions::session;
pub use state_text::registers_and_move;
pub use streams::{Counting, Failed, SessionError, Sink, Source};
