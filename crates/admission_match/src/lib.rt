//! Which requests a ValidatingAdmissionPolicy or a binding matches (Kubernetes, MatchResources).
#![tactic(auto)]

mod answer;
mod attributes;
mod equivalents;
mod group_version_resource;
pub mod laws;
mod match_policy;
mod match_resources;
mod matching;
mod namespace_answer;
mod namespaces;
mod operation;
mod patterns;
mod rule;
mod rules_answer;
mod scope;
mod trouble;

pub use answer::Answer;
pub use attributes::Attributes;
pub use group_version_resource::GroupVersionResource;
pub use match_policy::MatchPolicy;
pub use match_resources::MatchResources;
pub use namespaces::Namespaces;
pub use operation::Operation;
pub use rule::Rule;
pub use scope::Scope;
pub use trouble::Trouble;
