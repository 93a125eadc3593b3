//! Reviews of documents in files.
ghost use Rattle.std.specs.Prelude.{◌≡◌, Ok, IfOk, IsSome};
ghost use Rattle.policy_glue.specs.OneImage.{OneImage};
ghost use Rattle.review_runner.specs.Debugging.{held_view};
ghost use Rattle.admission.specs.Deciding.{Documents};
ghost use Rattle.admission.specs.declared.language.Language.TheVariants.{Profile};
ghost use Rattle.review_runner.specs.Order.{review, review_files_view};
ghost use Rattle.review_runner.specs.Output.{outcome_of, report_of};
ghost use Rattle.review_runner.specs.Performing.{PerformsBy};
ghost use Rattle.review_runner.specs.PolicyFiles.{answer_report, answer_status, held_with, ReviewsHeld};

use crate::documents::held_files::{HeldFiles, read_files};
use crate::documents::review_names::ReviewNames;
use crate::report::Report;
use admission::{Reply, review};
use cli::Refusal;
use host::Files;
use std::alloc::{AllocError, Global};

/// Reviews the documents in the files with these names.
pub fn review_files<F: Files>(
    alloc: Global,
    names: &ReviewNames,
    steps: u64,
    files: &mut F,
) -> Result<Report, Refusal>
    ensures reviews { PerformsBy OneImage (F.known files.old) (review (review_files_view names.now) steps) (F.known files.new) (outcome_of result) }
    ensures known { F.known files.new ≡ F.known files.old }
{
    let policy = names.policy.as_str();
    let review = names.review.as_str();
    let held = read_files(
        alloc,
        policy,
        Some(review),
        &names.namespace,
        &names.params,
        files,
    )?;
    review_held(alloc, &held, steps)
}

/// Decides the review in these documents.
fn review_held(alloc: Global, held: &HeldFiles, steps: u64) -> Result<Report, Refusal>
    requires { IsSome (held_view held.now).review }
    ensures { (d : Documents) → d.language ≡ Profile → held_with d.policy d ≡ held_view held.now → ReviewsHeld OneImage steps (Ok d) (outcome_of result) }
{
    let Some(document) = &held.review else {
        unreachable!();
    };
    let reply = review(
        alloc,
        &held.subject,
        document,
        held.namespace.as_deref(),
        held.params.as_deref(),
        steps,
    )?;
    Ok(printed(reply)?)
}

/// The reply in printed form.
fn printed(reply: Reply) -> Result<Report, AllocError>
    ensures { IfOk result (λ a. report_of a ≡ answer_report (record { response = reply.response.items; allowed = reply.allowed })) }
{
    let status = status_of(reply.allowed);
    let mut out = reply.response;
    out.push(b'\n')?;
    Ok(Report { status, out })
}

/// The exit status after a review with a response.
fn status_of(allowed: bool) -> u8
    ensures { result ≡ answer_status allowed }
{
    if allowed { 0 } else { 1 }
}
