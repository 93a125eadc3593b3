//! The steps of a policy under a binding, one after another.
ghost use Rattle.std.specs.List.{All};
ghost use Rattle.std.specs.Prelude.{◌≡◌, [], ◌∷◌, map, option_map, IfOk};
ghost use Rattle.serde_json.specs.View.{view};
ghost use Rattle.admission.specs.declared.language.Language.{Language};
ghost use Rattle.cluster_plan.specs.Steps.{evaluates, step_view};
ghost use Rattle.cluster_state.specs.Bindings.{binding_view};
ghost use Rattle.cluster_state.specs.Policies.{policy_view, BoundPolicy};
ghost use Rattle.cluster_gate.specs.Beside.{HasKnownNamespace, IsBesideIf};
ghost use Rattle.cluster_gate.specs.Running.{Adds, AddsStep, AddsSteps, IsRunOf};
ghost use Rattle.cluster_gate.specs.Dispatch.{undecided_event};
ghost use Rattle.cluster_gate.specs.declared.progress.Progress.TheVariants.{NextBinding};

use crate::evaluating::evaluate;
use crate::policy_run::PolicyRun;
use crate::progress::Progress;
use crate::refusing::refuse;
use cluster_plan::Step;
use cluster_response::{ClusterRefusal, Events};
use cluster_state::{Binding, Document};
use serde_json::Value;
use std::alloc::AllocError;

impl<'a> PolicyRun<'_, '_, '_, '_, 'a> {
    /// Adds the events of the steps of a binding, up to the first one that refuses. Returns whether
    /// the dispatch ends.
    pub(crate) fn run(
        &self,
        events: &mut Events,
        steps: &[Step<'_, 'a>],
    ) -> Result<bool, AllocError>
        requires { All (HasKnownNamespace self.now.case.now.opened self.now.case.now.place) (map step_view steps.now) }
        ensures { IfOk result (λ ended. (l : Language) (p : BoundPolicy) → IsRunOf l p self.now → AddsSteps l p self.now (map step_view steps.now) events.old events.new ended) }
    {
        for step in steps {
            match self.run_step(events, step)? {
                Progress::NextStep => {}
                Progress::NextBinding => return Ok(false),
                Progress::End => return Ok(true),
            }
        }
        Ok(false)
    }

    /// Adds the events of a step. Returns how the dispatch goes on.
    fn run_step(&self, events: &mut Events, step: &Step<'_, 'a>) -> Result<Progress, AllocError>
        requires { HasKnownNamespace self.now.case.now.opened self.now.case.now.place (step_view step.now) }
        ensures { IfOk result (λ progress. (l : Language) (p : BoundPolicy) → IsRunOf l p self.now → AddsStep l p self.now (step_view step.now) events.old events.new progress) }
    {
        match step {
            Step::Denial { binding, message } => {
                let name = self.policy.name;
                events.add_configuration_error(self.alloc, name, *binding, message.as_str())?;
                Ok(Progress::NextStep)
            }
            Step::UnknownMatch => self.refuse(events, ClusterRefusal::UnknownMatch),
            Step::Evaluation {
                binding,
                params,
                namespace,
            } => self.evaluate(events, binding, *params, *namespace),
            Step::NamespaceNotFound => {
                events.end();
                Ok(Progress::End)
            }
        }
    }

    /// Adds what the policy finds under a binding.
    fn evaluate(
        &self,
        events: &mut Events,
        binding: &Binding<'_>,
        params: Option<Document<'a>>,
        namespace: Option<Document<'a>>,
    ) -> Result<Progress, AllocError>
        requires { IsBesideIf self.now.case.now.opened self.now.case.now.place (option_map (λ d. view d.value.now) namespace) }
        ensures { IfOk result (λ progress. (l : Language) (p : BoundPolicy) → IsRunOf l p self.now
            → AddsStep l p self.now (evaluates (binding_view binding.now) (option_map (λ d. view d.value.now) params.entry) (option_map (λ d. view d.value.now) namespace.entry)) events.old events.new progress) }
    {
        let params = value_of(params);
        let namespace = value_of(namespace);
        match evaluate(self.alloc, self.gate, self.case, params, namespace)? {
            Ok(findings) => {
                let name = self.policy.name;
                events.add_findings(self.alloc, name, binding, findings.as_slice())?;
                Ok(Progress::NextStep)
            }
            Err(refusal) => self.refuse(events, refusal),
        }
    }

    /// The policy does not decide.
    fn refuse(&self, events: &mut Events, refusal: ClusterRefusal) -> Result<Progress, AllocError>
        ensures { IfOk result (λ progress. (progress ≡ NextBinding) × Adds events.old events.new (undecided_event (policy_view self.now.policy.now) refusal ∷ [])) }
    {
        refuse(self.alloc, self.policy, refusal, events)?;
        Ok(Progress::NextBinding)
    }
}

/// The value of a document, if there is one.
fn value_of<'a>(document: Option<Document<'a>>) -> Option<&'a Value>
    ensures { option_map (λ v. view v.now) result ≡ option_map (λ d. view d.value.now) document.entry }
{
    match document {
        Some(document) => Some(document.value),
        None => None,
    }
}
