//! What is asked of a cluster.

use crate::cluster::order::ClusterOrder;
use serde_json::Value;

/// What is asked of a cluster, and the lists from which it is read.
#[derive(Drop)]
pub struct ClusterTask {
    pub order: ClusterOrder,
    /// The documents in the files, in their order.
    pub lists: Vec<Value>,
}
