//! What happens while policies are evaluated on a request, and the response by it.
#![tactic(auto)]

mod annotation;
mod audit;
mod cluster_refusal;
mod denial;
mod events;
pub mod laws;
mod members;
mod messages;
mod names;
mod responding;
pub mod rows;
mod undecided;

pub use cluster_refusal::ClusterRefusal;
pub use events::Events;
pub use responding::response;
