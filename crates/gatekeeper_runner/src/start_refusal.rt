//! Why no line is read.
ghost use Rattle.std.specs.Prelude.{◌≡◌};
ghost use Rattle.cli.specs.Refusals.{order_refusal};
ghost use Rattle.cli.specs.declared.refusal.Refusal.TheVariants.{Memory};
ghost use Rattle.gatekeeper_runner.specs.Cluster.Starting.{refusal_of_cluster, refusal_of_state};
ghost use Rattle.gatekeeper_runner.specs.declared.start_refusal.StartRefusal.TheVariants.{Plain};

use crate::cluster_fault::ClusterFault;
use cli::Refusal;
use cluster_gate::ClusterError;
use cluster_state::StateError;
use host::OrderError;
use std::alloc::{AllocError, AllocFailed};

/// Why no line is read.
#[derive(Drop)]
pub enum StartRefusal {
    /// The words are refused, or memory ran out.
    Plain(Refusal),
    /// The state of a cluster, a file, or the policy in one, is refused.
    Cluster(ClusterFault),
}

impl From<AllocError> for StartRefusal {
    ghost from_gives = { λ _ r. r ≡ Plain Memory };

    fn from(_error: AllocError) -> StartRefusal {
        StartRefusal::Plain(Refusal::Memory)
    }
}

impl<T: Drop> From<AllocFailed<T>> for StartRefusal {
    ghost from_gives = { λ _ r. r ≡ Plain Memory };

    fn from(_error: AllocFailed<T>) -> StartRefusal {
        StartRefusal::Plain(Refusal::Memory)
    }
}

impl From<OrderError> for StartRefusal {
    ghost from_gives = { λ e r. r ≡ Plain (order_refusal e) };

    fn from(error: OrderError) -> StartRefusal {
        StartRefusal::Plain(Refusal::from(error))
    }
}

impl From<StateError> for StartRefusal {
    ghost from_gives = { λ e r. r ≡ refusal_of_state e };

    fn from(error: StateError) -> StartRefusal {
        match error {
            StateError::Memory => StartRefusal::Plain(Refusal::Memory),
            other => StartRefusal::Cluster(ClusterFault::NoState(other)),
        }
    }
}

impl From<ClusterError> for StartRefusal {
    ghost from_gives = { λ e r. r ≡ refusal_of_cluster e };

    fn from(error: ClusterError) -> StartRefusal {
        match error {
            ClusterError::Memory => StartRefusal::Plain(Refusal::Memory),
            ClusterError::BlockedPolicy(name, cause) => {
                StartRefusal::Cluster(ClusterFault::Blocked(name, cause))
            }
        }
    }
}
