//! The match resources that may match requests on a resource, by the resources that their rules name.
#![tactic(auto)]

pub mod laws;
mod naming;
mod resource_index;

pub use naming::may_match;
pub use resource_index::ResourceIndex;
