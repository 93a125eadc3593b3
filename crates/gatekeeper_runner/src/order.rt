//! What the command line asks for.

use crate::cluster::order::ClusterOrder;
use crate::policies::order::PolicyOrder;
use crate::translating::order::TranslationOrder;

/// What the words ask for.
#[derive(Drop)]
pub enum Order {
    /// Lines are answered under policies.
    Policies(PolicyOrder),
    /// Lines are answered as a cluster does.
    Cluster(ClusterOrder),
    /// A policy is translated.
    Translation(TranslationOrder),
}
