//! What counts of the events of a dispatch.
ghost use Rattle.std.specs.Prelude.{◌≡◌, ◌++◌, List, [], ◌∷◌, IfOk, OnOk, Some, map, option_map, string_bytes, true};
ghost use Rattle.cluster_state.specs.Bindings.{binding_view};
ghost use Rattle.verdicts.specs.Findings.{finding_view};
ghost use Rattle.cluster_response.specs.Events.{Event, KeepsEvents, action_event, audit_view, audits, configuration_event};
ghost use Rattle.cluster_response.specs.Events.{configured, denial_view, denies, ends, events_view, finding_events};
ghost use Rattle.cluster_response.specs.Events.{findings_events, refuses, summary_of, undecided_view, warning_text, warns};
ghost use Rattle.cluster_response.specs.Events.{is_closed};
ghost use Rattle.cluster_response.specs.Firsts.{preferred};
ghost use Rattle.cluster_response.specs.Keeping.{with_event, with_events};

use crate::audit::Audit;
use crate::cluster_refusal::ClusterRefusal;
use crate::denial::Denial;
use crate::undecided::Undecided;
use cluster_state::{Action, Binding};
use indexmap::IndexSet;
use std::alloc::{AllocError, Global};
use verdicts::{Finding, Reason};

/// What counts of the events of a dispatch: the first denial and failure that is audited, the
/// warnings, and the policy that is told of those that do not decide. If an allocation fails, events
/// are missing.
#[derive(Drop)]
pub struct Events {
    pub(crate) denial: Option<Denial>,
    /// Each text once, in the order of first occurrences.
    pub(crate) warnings: IndexSet<String>,
    pub(crate) audit: Option<Audit>,
    /// The first that fails closed, or else the first.
    pub(crate) undecided: Option<Undecided>,
    /// The request's namespace is not found.
    pub(crate) ended: bool,
}

impl Events {
    /// No events.
    pub fn new(alloc: Global) -> Events
        ensures { KeepsEvents result [] }
    {
        Events {
            denial: None,
            warnings: IndexSet::new(alloc),
            audit: None,
            undecided: None,
            ended: false,
        }
    }

    /// What the binding does about these findings of the policy: its actions, finding by finding.
    pub fn add_findings(
        &mut self,
        alloc: Global,
        policy: &str,
        binding: &Binding<'_>,
        findings: &[Finding],
    ) -> Result<(), AllocError>
        ensures { (es : List Event) → KeepsEvents self.old es → OnOk result
            (KeepsEvents self.new (es ++ findings_events policy.now (binding_view binding.now) (map finding_view findings.now))) }
    {
        self.act_on_each(alloc, policy, binding, findings)
    }

    /// A denial with the reason `Invalid`: the policy, or the binding, has this error of
    /// configuration on the request.
    pub fn add_configuration_error(
        &mut self,
        alloc: Global,
        policy: &str,
        binding: Option<&str>,
        error: &str,
    ) -> Result<(), AllocError>
        ensures { (es : List Event) → KeepsEvents self.old es → OnOk result
            (KeepsEvents self.new (es ++ configuration_event policy.now (option_map (λ s. s.now) binding.entry) error.now ∷ [])) }
    {
        self.deny_unconfigured(alloc, policy, binding, error)
    }

    /// The policy does not decide the request. `fails_closed`: its `failurePolicy` is not `Ignore`.
    pub fn refuse(
        &mut self,
        alloc: Global,
        policy: &str,
        fails_closed: bool,
        refusal: ClusterRefusal,
    ) -> Result<(), AllocError>
        ensures { (es : List Event) → KeepsEvents self.old es → OnOk result
            (KeepsEvents self.new (es ++ refuses (record { policy = policy.now; fails_closed = fails_closed; refusal = refusal }) ∷ [])) }
    {
        let undecided = Undecided::new(alloc, policy, fails_closed, refusal)?;
        self.keep_undecided(undecided);
        Ok(())
    }

    /// The dispatch ends, since the request's namespace is not found.
    pub fn end(&mut self)
        ensures { (es : List Event) → KeepsEvents self.old es → KeepsEvents self.new (es ++ ends ∷ []) }
    {
        self.ended = true;
    }

    /// Whether no event counts. Then the response allows the request and has nothing more.
    pub(crate) fn is_empty(&self) -> bool
        ensures { result ≡ true → events_view self.now ≡ summary_of [] }
    {
        let warnings = self.warnings.as_slice();
        match (&self.denial, &self.undecided, &self.audit, warnings) {
            (None, None, None, []) => !self.ended,
            _ => false,
        }
    }

    fn deny_unconfigured(
        &mut self,
        alloc: Global,
        policy: &str,
        binding: Option<&str>,
        error: &str,
    ) -> Result<(), AllocError>
        ensures { OnOk result (events_view self.new
            ≡ with_event (events_view self.old) (configuration_event policy.now (option_map (λ s. s.now) binding.entry) error.now)) }
    {
        let message = configuration_text(alloc, binding, error)?;
        let denial = Denial::new(alloc, policy, binding, message.as_str(), Reason::Invalid)?;
        self.deny(denial);
        Ok(())
    }

    fn act_on_each(
        &mut self,
        alloc: Global,
        policy: &str,
        binding: &Binding<'_>,
        findings: &[Finding],
    ) -> Result<(), AllocError>
        ensures { OnOk result (events_view self.new
            ≡ with_events (events_view self.old) (findings_events policy.now (binding_view binding.now) (map finding_view findings.now))) }
    {
        for finding in findings {
            self.act_on(alloc, policy, binding, finding)?;
        }
        Ok(())
    }

    fn act_on(
        &mut self,
        alloc: Global,
        policy: &str,
        binding: &Binding<'_>,
        finding: &Finding,
    ) -> Result<(), AllocError>
        ensures { OnOk result (events_view self.new
            ≡ with_events (events_view self.old) (finding_events policy.now (binding_view binding.now) (finding_view finding.now))) }
    {
        for action in &binding.actions {
            self.act(alloc, *action, policy, binding, finding)?;
        }
        Ok(())
    }

    fn act(
        &mut self,
        alloc: Global,
        action: Action,
        policy: &str,
        binding: &Binding<'_>,
        finding: &Finding,
    ) -> Result<(), AllocError>
        ensures { OnOk result (events_view self.new
            ≡ with_event (events_view self.old) (action_event policy.now (binding_view binding.now) (finding_view finding.now) action)) }
    {
        match action {
            Action::Deny => self.deny_by(alloc, policy, binding.name, finding),
            Action::Warn => self.warn(alloc, policy, binding.name, finding.message.as_str()),
            Action::Audit => self.audit_by(alloc, policy, binding, finding),
        }
    }

    fn deny_by(
        &mut self,
        alloc: Global,
        policy: &str,
        binding: &str,
        finding: &Finding,
    ) -> Result<(), AllocError>
        ensures { OnOk result (events_view self.new ≡ with_event (events_view self.old) (denies (record {
          policy = policy.now;
          binding = Some binding.now;
          message = string_bytes finding.now.message;
          reason = finding.now.reason;
        }))) }
    {
        let message = finding.message.as_str();
        let denial = Denial::new(alloc, policy, Some(binding), message, finding.reason)?;
        self.deny(denial);
        Ok(())
    }

    fn deny(&mut self, denial: Denial)
        ensures { events_view self.new ≡ with_event (events_view self.old) (denies (denial_view denial)) }
    {
        if self.denial.is_none() {
            self.denial = Some(denial);
        }
    }

    fn warn(
        &mut self,
        alloc: Global,
        policy: &str,
        binding: &str,
        message: &str,
    ) -> Result<(), AllocError>
        ensures { OnOk result (events_view self.new
            ≡ with_event (events_view self.old) (warns (warning_text policy.now binding.now message.now))) }
    {
        let text = warning_text(alloc, policy, binding, message)?;
        self.keep_warning(text)
    }

    #[tactic(auto, using(crate::proofs::Texts::text_kept))]
    fn keep_warning(&mut self, text: String) -> Result<(), AllocError>
        ensures { OnOk result (events_view self.new ≡ with_event (events_view self.old) (warns (string_bytes text))) }
    {
        self.warnings.insert(text)?;
        Ok(())
    }

    fn audit_by(
        &mut self,
        alloc: Global,
        policy: &str,
        binding: &Binding<'_>,
        finding: &Finding,
    ) -> Result<(), AllocError>
        ensures { OnOk result (events_view self.new ≡ with_event (events_view self.old) (audits (record {
          policy = policy.now;
          binding = binding.now.name.now;
          index = finding.now.index;
          message = string_bytes finding.now.message;
          actions = binding.now.actions.items;
        }))) }
    {
        let audit = Audit::new(alloc, policy, binding, finding)?;
        self.keep_audit(audit);
        Ok(())
    }

    fn keep_audit(&mut self, audit: Audit)
        ensures { events_view self.new ≡ with_event (events_view self.old) (audits (audit_view audit)) }
    {
        if self.audit.is_none() {
            self.audit = Some(audit);
        }
    }

    fn keep_undecided(&mut self, undecided: Undecided)
        ensures { events_view self.new ≡ with_event (events_view self.old) (refuses (undecided_view undecided)) }
    {
        self.undecided = Some(told_of(self.undecided.take(), undecided));
    }
}

/// The policy that is told, if this one does not decide after others.
fn told_of(first: Option<Undecided>, later: Undecided) -> Undecided
    ensures { undecided_view result ≡ preferred is_closed (option_map undecided_view first) (undecided_view later) }
{
    match first {
        Some(first) => {
            if first.fails_closed {
                first
            } else if later.fails_closed {
                later
            } else {
                first
            }
        }
        None => later,
    }
}

#[tactic(auto, unfolding(crate::specs::Events::warning_text))]
fn warning_text(
    alloc: Global,
    policy: &str,
    binding: &str,
    message: &str,
) -> Result<String, AllocError>
    ensures { IfOk result (λ t. string_bytes t ≡ warning_text policy.now binding.now message.now) }
{
    [
        "Validation failed for ValidatingAdmissionPolicy '",
        policy,
        "' with binding '",
        binding,
        "': ",
        message,
    ]
    .concat(alloc)
}

fn configuration_text(
    alloc: Global,
    binding: Option<&str>,
    error: &str,
) -> Result<String, AllocError>
    ensures { IfOk result (λ t. string_bytes t ≡ configured (option_map (λ s. s.now) binding.entry) ++ error.now) }
{
    let mut text = String::from_str(alloc, configured(binding))?;
    text.push_str(error)?;
    Ok(text)
}

#[tactic(auto, unfolding(crate::specs::Events::configured))]
fn configured(binding: Option<&str>) -> &'static str
    ensures { result.now ≡ configured (option_map (λ s. s.now) binding.entry) }
{
    match binding {
        Some(_) => "failed to configure binding: ",
        None => "failed to configure policy: ",
    }
}
