//! Why a cluster or a file is refused.

use crate::file_fault::FileFault;
use cluster_gate::BlockCause;
use cluster_state::StateError;

/// Why the state of a cluster, or a file, is refused, and no line is read.
#[derive(Drop)]
pub enum ClusterFault {
    /// The file of this name holds no List.
    NoList(String),
    /// The lists are not the state of a cluster.
    NoState(StateError),
    /// The policy of this name is blocked.
    Blocked(String, BlockCause),
    /// The file of this name is not read, or the policy in it is refused.
    InFile(String, FileFault),
}
