//! A policy that is asked about a request.
ghost use Rattle.std.specs.Prelude.{◌≡◌, false, map, IfOk};
ghost use Rattle.admission_documents.specs.Requests.{request_view};
ghost use Rattle.policy_glue.specs.OneImage.{OneImage};
ghost use Rattle.cluster_state.specs.Params.{namespace_named};
ghost use Rattle.cluster_state.specs.Policies.{policy_view, BoundPolicy};
ghost use Rattle.cluster_state.specs.State.{state_view, ClusterState};
ghost use Rattle.cluster_state.specs.Bindings.{binding_view};
ghost use Rattle.cluster_plan.specs.Steps.{asked_view, binding_steps};
ghost use Rattle.admission.specs.declared.language.Language.{Language};
ghost use Rattle.cluster_gate.specs.Gates.{asked_policy, IsGateFor};
ghost use Rattle.cluster_gate.specs.Beside.{IsBesideIf};
ghost use Rattle.cluster_gate.specs.Running.{AddsBindings, AddsMatched, AddsPolicy, AddsRun, AddsSteps, AddsTrouble, IsRunOf};

use crate::case::Case;
use crate::policy_gate::PolicyGate;
use crate::policy_run::PolicyRun;
use crate::refusing::refuse;
use crate::standing::Standing;
use admission_match::{Answer, Trouble};
use cluster_plan::{AskedPolicy, trouble_text};
use cluster_response::{ClusterRefusal, Events};
use cluster_state::{Binding, Policy, State};
use std::alloc::{AllocError, Global};

/// Adds the events of a policy. Returns whether the dispatch ends. The error is a failed
/// allocation.
pub(crate) fn ask<'a>(
    alloc: Global,
    state: &State<'a>,
    gate: &PolicyGate<'_, 'a>,
    case: &Case<'_, '_, 'a>,
    events: &mut Events,
) -> Result<bool, AllocError>
    requires { IsBesideIf case.now.opened case.now.place (namespace_named (request_view case.now.request.now).attributes.namespace (state_view state.now).objects) }
    ensures { IfOk result (λ ended. (l : Language) (s : ClusterState) (p : BoundPolicy) → state_view state.now ≡ s → IsGateFor l s p gate.now
        → AddsPolicy l OneImage s case.now.review.now case.now.limits (request_view case.now.request.now) p events.old events.new ended) }
{
    let policy = gate.asked.policy;
    let request = case.request;
    match policy.constraints.matches(&request.attributes, state) {
        Answer::No => Ok(false),
        Answer::Unknown => {
            refuse(alloc, policy, ClusterRefusal::UnknownMatch, events)?;
            Ok(false)
        }
        Answer::Trouble(trouble) => {
            ask_in_trouble(alloc, policy, case, trouble, events)?;
            Ok(false)
        }
        Answer::Yes => ask_matched(alloc, state, gate, case, events),
    }
}

/// The labels of the request's namespace are not known. That denies if the policy fails closed.
fn ask_in_trouble(
    alloc: Global,
    policy: &Policy<'_>,
    case: &Case<'_, '_, '_>,
    trouble: Trouble,
    events: &mut Events,
) -> Result<(), AllocError>
    ensures { IfOk result (λ u. (p : BoundPolicy) → policy_view policy.now ≡ p → AddsTrouble p (request_view case.now.request.now) trouble events.old events.new) }
{
    let request = case.request;
    if !policy.fails_closed() {
        return Ok(());
    }
    let message = trouble_text(alloc, trouble, request.attributes.namespace)?;
    events.add_configuration_error(alloc, policy.name, None, message.as_str())?;
    Ok(())
}

/// Adds the events of a policy whose constraints match.
fn ask_matched<'a>(
    alloc: Global,
    state: &State<'a>,
    gate: &PolicyGate<'_, 'a>,
    case: &Case<'_, '_, 'a>,
    events: &mut Events,
) -> Result<bool, AllocError>
    requires { IsBesideIf case.now.opened case.now.place (namespace_named (request_view case.now.request.now).attributes.namespace (state_view state.now).objects) }
    ensures { IfOk result (λ ended. (l : Language) (s : ClusterState) (p : BoundPolicy) → state_view state.now ≡ s → IsGateFor l s p gate.now
        → AddsMatched l OneImage s case.now.review.now case.now.limits (request_view case.now.request.now) p events.old events.new ended) }
{
    let policy = gate.asked.policy;
    match &gate.standing {
        Standing::Asked(compiled) => {
            let run = PolicyRun {
                alloc,
                policy,
                gate: compiled,
                case,
            };
            run.run_bindings(state, &gate.asked, events)
        }
        Standing::Blocked(cause) => {
            refuse(alloc, policy, cause.refusal(), events)?;
            Ok(false)
        }
    }
}

impl<'a> PolicyRun<'_, '_, '_, '_, 'a> {
    /// Adds the events of the policy, which is compiled, under each of its bindings.
    fn run_bindings(
        &self,
        state: &State<'a>,
        asked: &AskedPolicy<'_, 'a>,
        events: &mut Events,
    ) -> Result<bool, AllocError>
        requires { IsBesideIf self.now.case.now.opened self.now.case.now.place (namespace_named (request_view self.now.case.now.request.now).attributes.namespace (state_view state.now).objects) }
        ensures { IfOk result (λ ended. (l : Language) (s : ClusterState) (p : BoundPolicy) → state_view state.now ≡ s → asked_view asked.now ≡ asked_policy s p
            → IsRunOf l p self.now → AddsRun l s (request_view self.now.case.now.request.now) p self.now events.old events.new ended) }
    {
        let bindings = state.bindings_of(self.alloc, asked.policy.name)?;
        self.run_each(state, asked, bindings, events)
    }

    /// Adds the events of these bindings, up to the one that ends the dispatch.
    fn run_each(
        &self,
        state: &State<'a>,
        asked: &AskedPolicy<'_, 'a>,
        bindings: Vec<&Binding<'a>>,
        events: &mut Events,
    ) -> Result<bool, AllocError>
        requires { IsBesideIf self.now.case.now.opened self.now.case.now.place (namespace_named (request_view self.now.case.now.request.now).attributes.namespace (state_view state.now).objects) }
        ensures { IfOk result (λ ended. (l : Language) (p : BoundPolicy) → IsRunOf l p self.now
            → AddsBindings l p self.now (map (λ b. binding_steps (state_view state.now) (asked_view asked.now) (request_view self.now.case.now.request.now) (binding_view b.now)) bindings.entry.items) events.old events.new ended) }
    {
        for binding in bindings {
            if self.run_binding(state, asked, binding, events)? {
                return Ok(true);
            }
        }
        Ok(false)
    }

    /// Adds the events of a binding.
    fn run_binding(
        &self,
        state: &State<'a>,
        asked: &AskedPolicy<'_, 'a>,
        binding: &Binding<'a>,
        events: &mut Events,
    ) -> Result<bool, AllocError>
        requires { IsBesideIf self.now.case.now.opened self.now.case.now.place (namespace_named (request_view self.now.case.now.request.now).attributes.namespace (state_view state.now).objects) }
        ensures { IfOk result (λ ended. (l : Language) (p : BoundPolicy) → IsRunOf l p self.now
            → AddsSteps l p self.now (binding_steps (state_view state.now) (asked_view asked.now) (request_view self.now.case.now.request.now) (binding_view binding.now)) events.old events.new ended) }
    {
        let case = self.case;
        let steps = asked.binding_steps(self.alloc, state, case.request, binding)?;
        self.run(events, steps.as_slice())
    }
}
