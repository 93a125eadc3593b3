//! The resources of a rule.

use admission_match::Scope;

/// The resources that a rule applies to (Rule).
#[derive(Drop)]
pub(crate) struct ResourcePatterns {
    pub scope: Scope,
    pub api_groups: Vec<String>,
    pub api_versions: Vec<String>,
    pub resources: Vec<String>,
}
