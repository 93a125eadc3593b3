//! The denials of a verdict.

ghost use Rattle.std.specs.Prelude.{◌≡◌, ◌≤◌, ◌+◌, length, map, string_bytes, IfOk};
ghost use Rattle.verdicts.specs.Policy.{validation_view};
ghost use Rattle.verdicts.specs.Policy.{part_limit};
ghost use Rattle.verdicts.specs.Layout.{first_message, first_result};
ghost use Rattle.verdicts.specs.Words.{text_named, verdict_word, words_view};
ghost use Rattle.verdicts.specs.Denials.{denial_view, denials_by, denials_told, denies_word};
ghost use Rattle.verdicts.specs.Response.{denial_text, first_reason, joined, separator_of};

use crate::denial::Denial;
use crate::failure_policy::FailurePolicy;
use crate::reason::Reason;
use crate::validation::Validation;
use crate::verdict::{Verdict, text_named, word};
use crate::verdict_words::{ERRS, FAILS, FIRST_MESSAGE, FIRST_RESULT};
use guest_memory::Regions;
use std::alloc::{AllocError, Global};
use value_store::ValueStore;

/// The room that short messages take.
const ROOM: usize = 128;

/// The denials of a verdict on these validations, in order.
pub fn denials<'a>(
    alloc: Global,
    failure_policy: FailurePolicy,
    validations: &'a [Validation],
    verdict: &'a Verdict<'a>,
) -> Result<Vec<Denial<'a>>, AllocError>
    requires { length validations.now ≤ part_limit }
    ensures { IfOk result (λ ds. map denial_view ds.items ≡ denials_told failure_policy (map validation_view validations.now) (words_view verdict.now) 0) }
{
    let mut denials = Vec::new(alloc);
    for (i, validation) in validations.iter().enumerate() {
        if denies(failure_policy, verdict.result_at(i)) {
            let message = verdict.message_at(i);
            denials.push(Denial {
                validation,
                message,
            })?;
        }
    }
    Ok(denials)
}

/// The denials of the verdict that a program left on these validations, in order. Only words that
/// tell of a denial are read.
pub fn denials_left<'a, M: Regions, V: ValueStore>(
    alloc: Global,
    failure_policy: FailurePolicy,
    validations: &'a [Validation],
    memory: &M,
    values: &'a V,
) -> Result<Vec<Denial<'a>>, AllocError>
    requires { length validations.now ≤ part_limit }
    ensures { IfOk result (λ ds. map denial_view ds.items ≡ denials_by failure_policy (map validation_view validations.now)
        (λ i. verdict_word (M.bytes memory.now) (first_result + i)) (λ i. text_named (V.values values.now) (verdict_word (M.bytes memory.now) (first_message + i))) 0) }
{
    let mut denials = Vec::new(alloc);
    for (i, validation) in validations.iter().enumerate() {
        if denies(failure_policy, word(memory, FIRST_RESULT + i as u64)) {
            let message = text_named(values, word(memory, FIRST_MESSAGE + i as u64));
            denials.push(Denial {
                validation,
                message,
            })?;
        }
    }
    Ok(denials)
}

/// Whether a validation with this result word denies.
fn denies(failure_policy: FailurePolicy, word: u64) -> bool
    ensures { result ≡ denies_word failure_policy word }
{
    word == FAILS || word == ERRS && matches!(failure_policy, FailurePolicy::Fail)
}

/// The reason of the first denial.
pub fn first_reason(denials: &[Denial]) -> Reason
    ensures { result ≡ first_reason (map denial_view denials.now) }
{
    match denials {
        [] => Reason::Invalid,
        [first, ..] => first.validation.reason,
    }
}

/// The messages of the denials, joined with `; `.
#[tactic(auto, using(crate::proofs::Lists::join_start))]
pub fn joined(alloc: Global, denials: &[Denial]) -> Result<String, AllocError>
    ensures { IfOk result (λ s. string_bytes s ≡ joined (map denial_text (map denial_view denials.now))) }
{
    let mut text = String::with_capacity(alloc, ROOM)?;
    let mut later = false;
    for denial in denials {
        text.push_str(separator(later))?;
        denial.push_text(&mut text)?;
        later = true;
    }
    Ok(text)
}

fn separator(later: bool) -> &'static str
    ensures { result.now ≡ separator_of later }
{
    if later { "; " } else { "" }
}
