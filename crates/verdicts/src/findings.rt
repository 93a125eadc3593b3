//! What verdicts find against requests.

ghost use Rattle.std.specs.Prelude.{◌≡◌, ◌<◌, ◌≤◌, ◌∷◌, [], length, map, option_map, slice_get, slice_index, vec_len, IfOk};
ghost use Rattle.guest_memory.specs.Memory.{IsMemory};
ghost use Rattle.verdicts.specs.Verdict as decided;
ghost use Rattle.verdicts.specs.Denials.{lent};
ghost use Rattle.verdicts.specs.Findings.{error_finding, false_finding, finding_at, finding_view, findings_by, findings_of, undecided_finding};
ghost use Rattle.verdicts.specs.FindingWords.{findings_in, findings_in_words, truth_in};
ghost use Rattle.verdicts.specs.Layout.{outcome_of, IsLayout};
ghost use Rattle.verdicts.specs.Words.{words_view, Encodes};
ghost use Rattle.verdicts.specs.Policy.{part_limit};
ghost use Rattle.verdicts.specs.Policy.{validation_view};

use crate::failure_policy::FailurePolicy;
use crate::finding::Finding;
use crate::finding_message::{error_message, false_message};
use crate::outcome::Outcome;
use crate::parts::Parts;
use crate::policy::Policy;
use crate::reason::Reason;
use crate::validation::Validation;
use crate::verdict::{Verdict, word};
use crate::verdict_words::{ERRS, FAILS};
use guest_memory::Regions;
use std::alloc::{AllocError, Global};
use value_store::ValueStore;

/// What a verdict of the policy finds against the request: one finding for each validation that
/// denies, in their order, or one alone where the match conditions are not decided. The error says
/// that an allocation failed.
pub fn findings_of(
    alloc: Global,
    policy: &Policy,
    verdict: &Verdict,
) -> Result<Vec<Finding>, AllocError>
    ensures { (v : decided.Verdict) → Encodes policy.now.failure_policy v (words_view verdict.now) → IfOk result (λ found. map finding_view found.items ≡ findings_of policy.now v) }
{
    findings_by(alloc, &policy.parts, verdict)
}

/// What the verdict that a program left for the policy in its verdict region finds against the
/// request; nothing if it allows the request, and then only the outcome is read.
pub fn findings_left<M: Regions, V: ValueStore>(
    alloc: Global,
    policy: &Policy,
    memory: &M,
    values: &V,
) -> Result<Vec<Finding>, AllocError>
    ensures { (v : decided.Verdict) → IsMemory (M.bytes memory.now) → length v.findings ≤ length policy.now.validations
        → IsLayout policy.now.failure_policy v (V.values values.now) (M.bytes memory.now).verdict
        → IfOk result (λ found. map finding_view found.items ≡ findings_of policy.now v) }
{
    match Outcome::of_word(word(memory, 0)) {
        Outcome::Skipped | Outcome::Admitted => Ok(Vec::new(alloc)),
        Outcome::Rejected | Outcome::Denied => findings_read(alloc, policy, memory, values),
    }
}

/// `findings_left` by the whole verdict, which is large. It is kept out of the fast path.
#[inline(never)]
fn findings_read<M: Regions, V: ValueStore>(
    alloc: Global,
    policy: &Policy,
    memory: &M,
    values: &V,
) -> Result<Vec<Finding>, AllocError>
    ensures { (v : decided.Verdict) → IsMemory (M.bytes memory.now) → length v.findings ≤ length policy.now.validations
        → IsLayout policy.now.failure_policy v (V.values values.now) (M.bytes memory.now).verdict
        → IfOk result (λ found. map finding_view found.items ≡ findings_of policy.now v) }
{
    let verdict = Verdict::of(memory, values, policy);
    findings_of(alloc, policy, &verdict)
}

fn findings_by(alloc: Global, parts: &Parts, verdict: &Verdict) -> Result<Vec<Finding>, AllocError>
    requires { vec_len parts.now.validations ≤ part_limit }
    ensures { IfOk result (λ found. map finding_view found.items ≡ findings_by (outcome_of verdict.now.outcome) (findings_in parts.now verdict.now)) }
{
    match Outcome::of_word(verdict.outcome) {
        Outcome::Rejected => undecided(alloc),
        Outcome::Denied => findings(
            alloc,
            parts.failure_policy,
            parts.validations.as_slice(),
            verdict,
        ),
        Outcome::Skipped | Outcome::Admitted => Ok(Vec::new(alloc)),
    }
}

/// That the match conditions are not decided.
fn undecided(alloc: Global) -> Result<Vec<Finding>, AllocError>
    ensures { IfOk result (λ found. map finding_view found.items ≡ undecided_finding ∷ []) }
{
    let message = String::from_str(alloc, "match conditions not decided")?;
    let reason = Reason::Invalid;
    Ok(vec![in alloc;
        Finding {
            index: 0,
            message,
            reason
        },
    ]?)
}

/// What the validations find, in their order.
fn findings(
    alloc: Global,
    failure_policy: FailurePolicy,
    validations: &[Validation],
    verdict: &Verdict,
) -> Result<Vec<Finding>, AllocError>
    requires { length validations.now ≤ part_limit }
    ensures { IfOk result (λ found. map finding_view found.items ≡ findings_in_words failure_policy (map validation_view validations.now) (words_view verdict.now) 0) }
{
    let mut findings = Vec::new(alloc);
    for (i, validation) in validations.iter().enumerate() {
        if let Some(finding) = finding_at(alloc, failure_policy, i, validation, verdict)? {
            findings.push(finding)?;
        }
    }
    Ok(findings)
}

/// What the validation at this place finds, if it denies.
fn finding_at(
    alloc: Global,
    failure_policy: FailurePolicy,
    i: usize,
    validation: &Validation,
    verdict: &Verdict,
) -> Result<Option<Finding>, AllocError>
    requires { i < part_limit }
    ensures { let words = words_view verdict.now in
        IfOk result (λ found. option_map finding_view found ≡ finding_at failure_policy i (validation_view validation.now) (truth_in (slice_index words.results i)) (lent (slice_get words.messages i))) }
{
    match verdict.result_at(i) {
        FAILS => {
            let message = verdict.message_at(i);
            Ok(Some(false_finding(alloc, i, validation, message)?))
        }
        ERRS if matches!(failure_policy, FailurePolicy::Fail) => {
            Ok(Some(error_finding(alloc, i, validation)?))
        }
        _ => Ok(None),
    }
}

/// That the validation at this place is false, by the text of its message expression, if any.
fn false_finding(
    alloc: Global,
    i: usize,
    validation: &Validation,
    text: Option<&str>,
) -> Result<Finding, AllocError>
    ensures { IfOk result (λ found. finding_view found ≡ false_finding i (validation_view validation.now) (option_map (λ t. t.now) text.entry)) }
{
    let message = false_message(alloc, validation, text)?;
    let reason = validation.reason;
    Ok(Finding {
        index: i as u64,
        message,
        reason,
    })
}

/// That the validation at this place is an error.
fn error_finding(alloc: Global, i: usize, validation: &Validation) -> Result<Finding, AllocError>
    ensures { IfOk result (λ found. finding_view found ≡ error_finding i (validation_view validation.now)) }
{
    let message = error_message(alloc, validation)?;
    let reason = Reason::Invalid;
    Ok(Finding {
        index: i as u64,
        message,
        reason,
    })
}
