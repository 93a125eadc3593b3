//! Compiled policies with their labels.

use crate::policy_label::PolicyLabel;
use admission::Gate;

/// A compiled policy, and the label that its refusals show.
#[derive(Drop)]
pub struct NamedGate {
    pub gate: Gate,
    pub label: PolicyLabel,
}
