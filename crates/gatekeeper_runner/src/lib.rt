//! Reads reviews line by line and decides each under policies that are compiled once. `exit_code`
//! is the whole program; `answer_lines` answers its input.
#![tactic(auto)]

mod about;
mod cluster;
mod cluster_fault;
mod command_line;
mod endings;
mod fault_line;
mod file_fault;
mod file_reading;
mod labeling;
pub mod laws;
mod order;
mod ordering;
mod policies;
mod policy_label;
mod program;
mod refused;
mod refusing;
mod settings;
mod start_refusal;
mod translating;

pub use policies::answering::answer_lines;
pub use policies::gatekeeper::Gatekeeper;
pub use policies::named_gate::NamedGate;
pub use policy_label::PolicyLabel;
pub use program::exit_code;
pub use refused::Refused;
