//! Policies that do not decide.
ghost use Rattle.std.specs.Prelude.{[], ◌∷◌, IfOk};
ghost use Rattle.cluster_state.specs.Policies.{policy_view};
ghost use Rattle.cluster_gate.specs.Dispatch.{undecided_event};
ghost use Rattle.cluster_gate.specs.Running.{Adds};

use cluster_response::{ClusterRefusal, Events};
use cluster_state::Policy;
use std::alloc::{AllocError, Global};

/// Adds that the policy does not decide.
pub(crate) fn refuse(
    alloc: Global,
    policy: &Policy<'_>,
    refusal: ClusterRefusal,
    events: &mut Events,
) -> Result<(), AllocError>
    ensures { IfOk result (λ u. Adds events.old events.new (undecided_event (policy_view policy.now) refusal ∷ [])) }
{
    events.refuse(alloc, policy.name, policy.fails_closed(), refusal)?;
    Ok(())
}
