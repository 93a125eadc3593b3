//! The lines on a cluster that go to standard error.
ghost use Rattle.std.specs.Prelude.{◌≡◌, ◌++◌, map, option_map, IfOk, OnOk};
ghost use Rattle.admission.specs.declared.language.Language.{Language};
ghost use Rattle.serde_json.specs.View.{view};
ghost use Rattle.cluster_state.specs.Policies.{param_kind_view, BoundPolicy};
ghost use Rattle.cluster_state.specs.State.{state_view, ClusterState};
ghost use Rattle.cluster_state.specs.Bindings.{binding_view};
ghost use Rattle.cluster_gate.specs.Gates.{AreGatesFor, IsGateFor};
ghost use Rattle.gatekeeper_runner.specs.Cluster.Starting.{cause_text};
ghost use Rattle.gatekeeper_runner.specs.Cluster.Telling.{block_text, cause_of, note_line, note_lines, params_text, policy_front, policy_line, spaced, TellsPolicies};

use crate::cluster::listed::Listed;
use admission::LeftOut;
use cli::{add_number, add_policy, add_wide, add_wide_cause};
use cluster_gate::{BlockCause, PolicyGate, Standing};
use cluster_state::{Binding, ParamKind, State};
use serde_json::Value;
use std::alloc::{AllocError, Global};

/// A line for each policy of the cluster that has a binding, in the order of their names.
pub fn policies_text<'a>(
    alloc: Global,
    lists: &'a [Value],
    state: &State<'a>,
    gates: &[PolicyGate<'_, 'a>],
) -> Result<Vec<u8>, AllocError>
    ensures { IfOk result (λ t. (l : Language) (s : ClusterState) → state_view state.now ≡ s → AreGatesFor l s s.policies gates.now → TellsPolicies l (map view lists.now) s s.policies t.items) }
{
    let listed = Listed::new(alloc, lists)?;
    let mut text = Vec::new(alloc);
    for gate in gates {
        let lines = gate_lines(alloc, &listed, state, gate)?;
        text.extend_from_slice(lines.as_slice())?;
    }
    Ok(text)
}

/// The line of a policy, and those on the message expressions that are left out of it.
fn gate_lines<'a>(
    alloc: Global,
    listed: &Listed<'a>,
    state: &State<'a>,
    gate: &PolicyGate<'_, 'a>,
) -> Result<Vec<u8>, AllocError>
    ensures { IfOk result (λ t. (l : Language) (s : ClusterState) (p : BoundPolicy) → state_view state.now ≡ s → IsGateFor l s p gate.now
        → t.items ≡ policy_line (map view listed.now.lists.now) s p (cause_of gate.now.standing) ++ note_lines p.name gate.now.left_out.items) }
{
    let mut lines = policy_line(alloc, listed, state, gate)?;
    add_notes(&mut lines, gate.asked.policy.name, gate.left_out.as_slice())?;
    Ok(lines)
}

/// The line of a policy.
fn policy_line<'a>(
    alloc: Global,
    listed: &Listed<'a>,
    state: &State<'a>,
    gate: &PolicyGate<'_, 'a>,
) -> Result<Vec<u8>, AllocError>
    ensures { IfOk result (λ t. (l : Language) (s : ClusterState) (p : BoundPolicy) → state_view state.now ≡ s → IsGateFor l s p gate.now
        → t.items ≡ policy_line (map view listed.now.lists.now) s p (cause_of gate.now.standing)) }
{
    let policy = gate.asked.policy;
    let mut line = Vec::new(alloc);
    add_front(&mut line, policy.name)?;
    line.extend_from_slice(b", bindings")?;
    let bindings = state.bindings_of(alloc, policy.name)?;
    add_bindings(&mut line, bindings)?;
    add_params(&mut line, listed, &policy.param_kind)?;
    add_standing(alloc, &mut line, &gate.standing)?;
    line.extend_from_slice(b"\n")?;
    Ok(line)
}

/// Adds how a line on the policy with this name begins.
#[tactic(auto, unfolding(crate::specs::Cluster::Telling::policy_front))]
fn add_front(line: &mut Vec<u8>, name: &str) -> Result<(), AllocError>
    ensures { OnOk result (line.new.items ≡ line.old.items ++ policy_front name.now) }
{
    line.extend_from_slice(b"gatekeeper: policy ")?;
    line.extend_from_slice(name.as_bytes())?;
    Ok(())
}

/// Adds the names of the bindings.
fn add_bindings(line: &mut Vec<u8>, bindings: Vec<&Binding<'_>>) -> Result<(), AllocError>
    ensures { OnOk result (line.new.items ≡ line.old.items ++ spaced (map (λ b. b.name) (map (λ b. binding_view b.now) bindings.entry.items))) }
{
    for binding in bindings {
        line.extend_from_slice(b" ")?;
        line.extend_from_slice(binding.name.as_bytes())?;
    }
    Ok(())
}

/// Adds the kind of params, and how many of this kind are listed.
fn add_params<'a>(
    line: &mut Vec<u8>,
    listed: &Listed<'a>,
    kind: &Option<ParamKind<'a>>,
) -> Result<(), AllocError>
    ensures { OnOk result (line.new.items ≡ line.old.items ++ params_text (map view listed.now.lists.now) (option_map param_kind_view kind.now)) }
{
    let Some(kind) = kind else { return Ok(()) };
    line.extend_from_slice(b", params ")?;
    line.extend_from_slice(kind.api_version.as_bytes())?;
    line.extend_from_slice(b" ")?;
    line.extend_from_slice(kind.kind.as_bytes())?;
    line.extend_from_slice(b" ")?;
    add_number(line, listed.count(kind))
}

/// Adds why the policy is blocked, if it is.
fn add_standing(alloc: Global, line: &mut Vec<u8>, standing: &Standing) -> Result<(), AllocError>
    ensures { OnOk result (line.new.items ≡ line.old.items ++ block_text (cause_of standing.now)) }
{
    match standing {
        Standing::Asked(_) => Ok(()),
        Standing::Blocked(cause) => {
            line.extend_from_slice(b", blocked ")?;
            line.extend_from_slice(cause.refusal().code().as_bytes())?;
            add_cause(alloc, line, cause)
        }
    }
}

/// Adds what the line on a blocked policy has after its code.
pub fn add_cause(alloc: Global, line: &mut Vec<u8>, cause: &BlockCause) -> Result<(), AllocError>
    ensures { OnOk result (line.new.items ≡ line.old.items ++ cause_text cause.now) }
{
    match cause {
        BlockCause::Refused(error) => {
            line.extend_from_slice(b" ")?;
            add_policy(alloc, line, *error)?;
        }
        BlockCause::RefusedWide(error) => {
            line.extend_from_slice(b" ")?;
            add_wide(alloc, line, error)?;
        }
        BlockCause::NamesNamespace => line.extend_from_slice(b" namespaceObject")?,
        BlockCause::UnknownParamKind => {}
    }
    Ok(())
}

/// Adds the lines on the message expressions that are left out of the policy with this name.
pub fn add_notes(text: &mut Vec<u8>, name: &str, notes: &[LeftOut]) -> Result<(), AllocError>
    ensures { OnOk result (text.new.items ≡ text.old.items ++ note_lines name.now notes.now) }
{
    for note in notes {
        add_note(text, name, note)?;
    }
    Ok(())
}

/// Adds the line on a message expression that is left out of the policy with this name.
fn add_note(text: &mut Vec<u8>, name: &str, note: &LeftOut) -> Result<(), AllocError>
    ensures { OnOk result (text.new.items ≡ text.old.items ++ note_line name.now note.now) }
{
    add_front(text, name)?;
    text.extend_from_slice(b", left out message ")?;
    add_number(text, note.validation)?;
    text.extend_from_slice(b" ")?;
    add_wide_cause(text, &note.cause)?;
    text.extend_from_slice(b"\n")?;
    Ok(())
}
