//! Carries out orders with files from the caller.
ghost use Rattle.std.specs.Prelude.{◌≡◌, false, true, Err, IfOk, OnErr};
ghost use Rattle.policy_glue.specs.OneImage.{OneImage};
ghost use Rattle.host.specs.FileSystem.{KeepsFiles};
ghost use Rattle.review_runner.specs.Opening.{IsDueResult};
ghost use Rattle.review_runner.specs.Order.{is_session, order_view, run_image};
ghost use Rattle.review_runner.specs.Output.{outcome_of, output_by, output_of, report_of, run_image_outcome, run_status};
ghost use Rattle.review_runner.specs.Performing.{IsDone, only_reads, PerformsBy};
ghost use Rattle.cli.specs.declared.refusal.Refusal.TheVariants.{Memory};

use crate::command_line::order::Order;
use crate::done::Done;
use crate::images::listing::list_file;
use crate::images::making::make_file;
use crate::images::running::run_image;
use crate::images::source_kind::SourceKind;
use crate::report::Report;
use crate::review_files::review_files;
use bpf_machine::Status;
use cli::{LONGEST_LINE, Refusal};
use host::Files;
use std::alloc::{AllocError, Global};

/// Carries out the order; returns the output and the exit status. A refusal is a result too. The
/// only error is a failed allocation, after which the files are unchanged. Sessions are run by
/// `debug`.
pub fn perform<F: Files>(alloc: Global, order: &Order, files: &mut F) -> Result<Done, AllocError>
    requires { is_session (order_view order.now) ≡ false }
    ensures done { IfOk result (λ d. IsDone OneImage (F.known files.old) (order_view order.now) (F.known files.new) (output_of d)) }
    // An allocation fails only if the order may run out of memory (`LacksMemory`). No clause says
    // that a refusal after a read is reported as itself, because no contract states which reads
    // failed for memory.
    ensures lacks { OnErr result (PerformsBy OneImage (F.known files.old) (order_view order.now) (F.known files.new) (Err Memory)) }
    ensures memory { OnErr result (KeepsFiles (F.known files.old) (F.known files.new)) }
    ensures stays { only_reads (order_view order.now) ≡ true → F.known files.new ≡ F.known files.old }
{
    // The capacity for a refusal's line is reserved first, so that no refusal is lost to a failed
    // allocation.
    let room = Vec::with_capacity(alloc, LONGEST_LINE)?;
    match answer(alloc, order, files) {
        Ok(answer) => Ok(Done {
            status: answer.status,
            out: answer.out,
            err: room,
        }),
        Err(refusal) => Done::of_refusal(alloc, refusal, room),
    }
}

/// The result of an order, or its refusal. A refusal before the first allocation is returned as
/// itself.
fn answer<F: Files>(alloc: Global, order: &Order, files: &mut F) -> Result<Report, Refusal>
    requires { is_session (order_view order.now) ≡ false }
    ensures { PerformsBy OneImage (F.known files.old) (order_view order.now) (F.known files.new) (outcome_of result) }
{
    match order {
        Order::Compile { policy, image } => {
            let kind = SourceKind::PolicyDocument;
            make_file(alloc, kind, policy.as_str(), image.as_str(), files)
        }
        Order::Review {
            files: names,
            steps,
        } => review_files(alloc, names, *steps, files),
        Order::RunImage { image, steps } => run_file(alloc, image.as_str(), *steps, files),
        Order::Assemble { text, image } => {
            let kind = SourceKind::ProgramText;
            make_file(alloc, kind, text.as_str(), image.as_str(), files)
        }
        Order::List { image } => list_file(alloc, image.as_str(), files),
        Order::Debug { .. } => unreachable!(),
    }
}

/// Runs the image in the file with this name.
fn run_file<F: Files>(
    alloc: Global,
    image: &str,
    steps: u64,
    files: &mut F,
) -> Result<Report, Refusal>
    ensures runs { PerformsBy OneImage (F.known files.old) (run_image image.now steps) (F.known files.new) (outcome_of result) }
    ensures known { F.known files.new ≡ F.known files.old }
{
    let file = files.read(alloc, image)?;
    run_held(alloc, &file, steps)
}

/// Runs the image that the file holds, if it holds one.
fn run_held(alloc: Global, file: &[u8], steps: u64) -> Result<Report, Refusal>
    ensures { IsDueResult (run_image_outcome (Ok file.now) steps) (outcome_of result) }
{
    let (out, status) = run_image(alloc, file, steps)?;
    Ok(Report {
        status: run_status(status),
        out,
    })
}

/// The program's status after a run.
fn run_status(status: Status) -> u8
    ensures { result ≡ run_status status }
{
    match status {
        Status::Exited(_) => 0,
        Status::Fault(_) => 1,
        Status::Running => 4,
    }
}
