//! The gates of a cluster's policies.
ghost use Rattle.std.specs.Prelude.{◌≡◌, option_map, IfOk};
ghost use Rattle.cluster_state.specs.Params.{known_kind_view};
ghost use Rattle.cluster_state.specs.Policies.{policy_view, BoundPolicy};
ghost use Rattle.cluster_state.specs.State.{state_view};
ghost use Rattle.admission.specs.declared.language.Language.{Language as InLanguage, TheVariants.Profile, TheVariants.Wide};
ghost use Rattle.cluster_gate.specs.CompiledDocuments.{compiled_document};
ghost use Rattle.cluster_gate.specs.Gates.{kind_of, GatesOpen, HasOpened, IsGateFor, IsGateOfText, OpensGateFor, StandsIf};
ghost use Rattle.cluster_gate.specs.Texts.{IsJsonTextOf};

use crate::block_cause::BlockCause;
use crate::cluster_error::ClusterError;
use crate::policy_gate::PolicyGate;
use crate::standing::Standing;
use crate::texts::compiled_text;
use admission::{Gate, Language, LeftOut, MessageRule, PolicyRefusal, WideGate, WideRefusal};
use cluster_plan::AskedPolicy;
use cluster_state::{KnownKind, Policy, State};
use std::alloc::{AllocError, Global};

/// The gate of each bound policy, in the order of their names. The policies are read in this
/// language. Unless `partial`, the first policy that is blocked is the error.
pub(crate) fn open_gates<'s, 'a>(
    alloc: Global,
    state: &'s State<'a>,
    language: Language,
    partial: bool,
) -> Result<Vec<PolicyGate<'s, 'a>>, ClusterError>
    ensures { GatesOpen language (state_view state.now) partial (state_view state.now).policies result }
{
    let policies = state.policies();
    let mut gates = Vec::new(alloc);
    for policy in policies {
        match open_gate(alloc, state, policy, language, partial) {
            Ok(gate) => gates.push(gate)?,
            Err(error) => return Err(error),
        }
    }
    Ok(gates)
}

/// The gate of a policy, which may be blocked only if `partial`.
fn open_gate<'s, 'a>(
    alloc: Global,
    state: &'s State<'a>,
    policy: &'s Policy<'a>,
    language: Language,
    partial: bool,
) -> Result<PolicyGate<'s, 'a>, ClusterError>
    ensures { OpensGateFor language (state_view state.now) partial (policy_view policy.now) result }
{
    let gate = gate_for(alloc, state, policy, language)?;
    if partial {
        return Ok(gate);
    }
    let PolicyGate {
        asked,
        standing,
        left_out,
    } = gate;
    match standing {
        Standing::Asked(gate) => Ok(PolicyGate {
            asked,
            standing: Standing::Asked(gate),
            left_out,
        }),
        Standing::Blocked(cause) => Err(ClusterError::BlockedPolicy(
            String::from_str(alloc, policy.name)?,
            cause,
        )),
    }
}

/// The gate of a policy.
fn gate_for<'s, 'a>(
    alloc: Global,
    state: &'s State<'a>,
    policy: &'s Policy<'a>,
    language: Language,
) -> Result<PolicyGate<'s, 'a>, AllocError>
    ensures { IfOk result (IsGateFor language (state_view state.now) (policy_view policy.now)) }
{
    let kind = kind_of(state, policy);
    let lacks_kind = policy.param_kind.is_some() && kind.is_none();
    let (standing, left_out) = opened(alloc, policy, language, lacks_kind)?;
    let asked = AskedPolicy { policy, kind };
    Ok(PolicyGate {
        asked,
        standing,
        left_out,
    })
}

/// The kind of the policy's params, if it has one and params of it can be found.
fn kind_of<'a>(state: &State<'a>, policy: &Policy<'a>) -> Option<KnownKind<'a>>
    ensures { option_map known_kind_view result ≡ kind_of (state_view state.now) (policy_view policy.now) }
{
    match &policy.param_kind {
        Some(kind) => state.known_kind(kind),
        None => None,
    }
}

/// Whether the policy is asked, by whether it lacks a kind of params, and what is left out of it.
fn opened(
    alloc: Global,
    policy: &Policy<'_>,
    language: Language,
    lacks: bool,
) -> Result<(Standing, Vec<LeftOut>), AllocError>
    ensures { IfOk result (λ t. HasOpened language (policy_view policy.now) lacks t.0 t.1.items) }
{
    let text = compiled_text(alloc, policy.document)?;
    match language {
        Language::Profile => Ok((standing(alloc, text.as_slice(), lacks)?, Vec::new(alloc))),
        Language::Wide(rule) => wide_standing(alloc, text.as_slice(), rule, lacks),
    }
}

/// Whether the policy in this text is asked.
fn standing(alloc: Global, text: &[u8], lacks: bool) -> Result<Standing, AllocError>
    ensures { IfOk result (λ t. (p : BoundPolicy) → IsJsonTextOf (compiled_document p.document) text.now → StandsIf Profile p lacks t) }
{
    match Gate::new(alloc, text) {
        Ok(gate) => standing_of(gate, lacks),
        Err(PolicyRefusal::Memory) => Err(AllocError),
        Err(PolicyRefusal::Unread(error)) => {
            Ok(Standing::Blocked(BlockCause::Refused(PolicyRefusal::Unread(error))))
        }
        Err(PolicyRefusal::Uncompiled(error)) => Ok(Standing::Blocked(BlockCause::Refused(
            PolicyRefusal::Uncompiled(error),
        ))),
    }
}

/// Whether the policy in this text, which is read in the wide language, is asked, and what is left
/// out of it.
fn wide_standing(
    alloc: Global,
    text: &[u8],
    rule: MessageRule,
    lacks: bool,
) -> Result<(Standing, Vec<LeftOut>), AllocError>
    ensures { IfOk result (λ t. (p : BoundPolicy) → IsJsonTextOf (compiled_document p.document) text.now → HasOpened (Wide rule) p lacks t.0 t.1.items) }
{
    match WideGate::new(alloc, text, rule) {
        Ok(opened) => Ok((standing_of(opened.gate, lacks)?, opened.left_out)),
        Err(WideRefusal::Memory) => Err(AllocError),
        Err(WideRefusal::Unread(error)) => Ok((
            Standing::Blocked(BlockCause::RefusedWide(WideRefusal::Unread(error))),
            Vec::new(alloc),
        )),
        Err(WideRefusal::Uncompiled(error)) => Ok((
            Standing::Blocked(BlockCause::RefusedWide(WideRefusal::Uncompiled(error))),
            Vec::new(alloc),
        )),
    }
}

/// Whether a compiled policy is asked.
fn standing_of(gate: Gate, lacks: bool) -> Result<Standing, AllocError>
    ensures { IfOk result (λ t. (l : InLanguage) (p : BoundPolicy) → IsGateOfText l p gate → StandsIf l p lacks t) }
{
    if gate.names_namespace_in_conditions()? {
        return Ok(Standing::Blocked(BlockCause::NamesNamespace));
    }
    if lacks {
        return Ok(Standing::Blocked(BlockCause::UnknownParamKind));
    }
    Ok(Standing::Asked(gate))
}
