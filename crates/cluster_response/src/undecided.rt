//! Policies that do not decide.
ghost use Rattle.std.specs.Prelude.{◌≡◌, IfOk};

use crate::cluster_refusal::ClusterRefusal;
use std::alloc::{AllocError, Global};

/// A policy that does not decide the request.
#[derive(Debug, Drop)]
pub(crate) struct Undecided {
    pub(crate) policy: String,
    /// Whether the policy's `failurePolicy` is not `Ignore`.
    pub(crate) fails_closed: bool,
    pub(crate) refusal: ClusterRefusal,
}

impl Undecided {
    ghost use Rattle.cluster_response.specs.Events.{undecided_view};

    pub(crate) fn new(
        alloc: Global,
        policy: &str,
        fails_closed: bool,
        refusal: ClusterRefusal,
    ) -> Result<Undecided, AllocError>
        ensures { IfOk result (λ r. undecided_view r ≡ record { policy = policy.now; fails_closed = fails_closed; refusal = refusal }) }
    {
        let policy = String::from_str(alloc, policy)?;
        Ok(Undecided {
            policy,
            fails_closed,
            refusal,
        })
    }
}
