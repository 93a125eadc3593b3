//! Rejections, computed from verdicts.

ghost use Rattle.std.specs.Prelude.{◌≡◌, ◌≤◌, length, map, option_map, vec_len, IfOk};
ghost use Rattle.guest_memory.specs.Memory.{IsMemory};
ghost use Rattle.verdicts.specs.Verdict as decided;
ghost use Rattle.verdicts.specs.Denials.{denial_view, denials_in, denials_read};
ghost use Rattle.verdicts.specs.Layout.{outcome_of, IsLayout};
ghost use Rattle.verdicts.specs.Words.{words_view, Encodes};
ghost use Rattle.verdicts.specs.Rejections.{denied, rejection_by, rejection_of, rejection_view, undecided};
ghost use Rattle.verdicts.specs.Policy.{part_limit};
ghost use Rattle.verdicts.specs.Response.{denials_of};

use crate::denial::Denial;
use crate::denials::{denials, denials_left, first_reason, joined};
use crate::outcome::Outcome;
use crate::parts::Parts;
use crate::policy::Policy;
use crate::reason::Reason;
use crate::rejection::Rejection;
use crate::verdict::{Verdict, word};
use guest_memory::Regions;
use std::alloc::{AllocError, Global};
use value_store::ValueStore;

/// Why the verdict that a program left for the policy in its verdict region rejects the request;
/// `None` if it allows the request. Only the words that tell so are read.
pub fn rejection_left<M: Regions, V: ValueStore>(
    alloc: Global,
    policy: &Policy,
    memory: &M,
    values: &V,
) -> Result<Option<Rejection>, AllocError>
    ensures { (v : decided.Verdict) → IsMemory (M.bytes memory.now) → length v.findings ≤ length policy.now.validations
        → IsLayout policy.now.failure_policy v (V.values values.now) (M.bytes memory.now).verdict
        → IfOk result (λ said. option_map rejection_view said ≡ rejection_of policy.now v) }
{
    match Outcome::of_word(word(memory, 0)) {
        Outcome::Skipped | Outcome::Admitted => Ok(None),
        Outcome::Rejected => Ok(Some(undecided(alloc)?)),
        Outcome::Denied => Ok(Some(denied_left(alloc, policy, memory, values)?)),
    }
}

/// The rejection for the denials of such a verdict.
#[inline(never)]
fn denied_left<M: Regions, V: ValueStore>(
    alloc: Global,
    policy: &Policy,
    memory: &M,
    values: &V,
) -> Result<Rejection, AllocError>
    ensures { (v : decided.Verdict) → IsMemory (M.bytes memory.now)
        → IsLayout policy.now.failure_policy v (V.values values.now) (M.bytes memory.now).verdict
        → IfOk result (λ o. rejection_view o ≡ denied (denials_of policy.now.failure_policy policy.now.validations v.findings)) }
{
    denied_by(alloc, &policy.parts, memory, values)
}

fn denied_by<M: Regions, V: ValueStore>(
    alloc: Global,
    parts: &Parts,
    memory: &M,
    values: &V,
) -> Result<Rejection, AllocError>
    requires { vec_len parts.now.validations ≤ part_limit }
    ensures { IfOk result (λ o. rejection_view o ≡ denied (denials_read (M.bytes memory.now) (V.values values.now) parts.now)) }
{
    let denials = denials_left(
        alloc,
        parts.failure_policy,
        parts.validations.as_slice(),
        memory,
        values,
    )?;
    rejection_for(alloc, denials.as_slice())
}

/// Why the verdict of the policy rejects the request; `None` if it allows the request.
pub fn rejection_of(
    alloc: Global,
    policy: &Policy,
    verdict: &Verdict,
) -> Result<Option<Rejection>, AllocError>
    ensures { (v : decided.Verdict) → Encodes policy.now.failure_policy v (words_view verdict.now) → IfOk result (λ said. option_map rejection_view said ≡ rejection_of policy.now v) }
{
    rejection_by(alloc, &policy.parts, verdict)
}

fn rejection_by(
    alloc: Global,
    parts: &Parts,
    verdict: &Verdict,
) -> Result<Option<Rejection>, AllocError>
    requires { vec_len parts.now.validations ≤ part_limit }
    ensures { IfOk result (λ said. option_map rejection_view said ≡ rejection_by (outcome_of verdict.now.outcome) (denials_in parts.now verdict.now)) }
{
    match Outcome::of_word(verdict.outcome) {
        Outcome::Rejected => Ok(Some(undecided(alloc)?)),
        Outcome::Denied => Ok(Some(denied(alloc, parts, verdict)?)),
        Outcome::Skipped | Outcome::Admitted => Ok(None),
    }
}

/// The rejection if the conditions could not be decided.
fn undecided(alloc: Global) -> Result<Rejection, AllocError>
    ensures { IfOk result (λ o. rejection_view o ≡ undecided) }
{
    let message = String::from_str(alloc, "match conditions not decided")?;
    let reason = Reason::Invalid;
    Ok(Rejection { message, reason })
}

/// The rejection for the denials of a verdict.
fn denied(alloc: Global, parts: &Parts, verdict: &Verdict) -> Result<Rejection, AllocError>
    requires { vec_len parts.now.validations ≤ part_limit }
    ensures { IfOk result (λ o. rejection_view o ≡ denied (denials_in parts.now verdict.now)) }
{
    let denials = denials(
        alloc,
        parts.failure_policy,
        parts.validations.as_slice(),
        verdict,
    )?;
    rejection_for(alloc, denials.as_slice())
}

/// The rejection for these denials.
fn rejection_for(alloc: Global, denials: &[Denial]) -> Result<Rejection, AllocError>
    ensures { IfOk result (λ o. rejection_view o ≡ denied (map denial_view denials.now)) }
{
    let message = joined(alloc, denials)?;
    let reason = first_reason(denials);
    Ok(Rejection { message, reason })
}
