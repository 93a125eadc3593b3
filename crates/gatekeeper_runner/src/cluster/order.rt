//! A cluster's state that the words name.

use crate::settings::Settings;
use std::alloc::Global;

/// The names of files, and how lines are answered.
#[derive(Drop)]
pub struct ClusterOrder {
    pub alloc: Global,
    /// The files with lists of a cluster's state, in the order of the words.
    pub files: Vec<String>,
    /// Whether a policy may be refused, with each request that it matches.
    pub partial: bool,
    pub settings: Settings,
}
