//! What decides the lines as a cluster does.

use admission::Limits;
use cluster_gate::Cluster;
use std::alloc::Global;

/// The cluster as which each line is decided. No line changes it.
#[derive(Drop)]
pub struct ClusterKeeper<'s, 'a> {
    pub alloc: Global,
    pub cluster: Cluster<'s, 'a>,
    /// What each evaluation of a policy may take.
    pub limits: Limits,
    /// The lines on its policies, written before the first review is read.
    pub told: Vec<u8>,
}
