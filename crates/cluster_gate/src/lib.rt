//! Decides reviews as the policies of a whole cluster do.
#![tactic(auto)]

mod asking;
mod base;
mod bases;
mod block_cause;
mod case;
mod cluster;
mod cluster_error;
mod evaluating;
mod kept_bases;
pub mod laws;
mod namespace_place;
mod opened_review;
mod opened_tables;
mod opening;
mod policy_document;
mod policy_gate;
mod policy_run;
mod progress;
mod read_document;
mod refusing;
mod review_opening;
mod review_request;
mod running;
mod same;
mod standing;
mod texts;

pub use block_cause::BlockCause;
pub use cluster::Cluster;
pub use cluster_error::ClusterError;
pub use policy_gate::PolicyGate;
pub use standing::Standing;
