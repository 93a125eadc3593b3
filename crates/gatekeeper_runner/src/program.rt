//! The program, from its words to its exit code.
ghost use Rattle.std.specs.Prelude.{◌≡◌};
ghost use Rattle.std.specs.Process.{exit_status};
ghost use Rattle.streams.specs.Streams.{stream};
ghost use Rattle.policy_glue.specs.OneImage.{OneImage};
ghost use Rattle.cli.specs.Ending.{given_of, system};
ghost use Rattle.gatekeeper_runner.specs.Orders.{lines_order_view};
ghost use Rattle.gatekeeper_runner.specs.Program.{AsksOrder, DoesOrder, GatekeeperResult};

use crate::about::text_asked;
use crate::cluster::answer_as_cluster;
use crate::endings::{end_start, tell_text};
use crate::order::Order;
use crate::ordering::order_of;
use crate::policies::answer_under;
use crate::start_refusal::StartRefusal;
use crate::translating::answer_translation;
use cli::{exit_with, texts_of};
use host::{OrderError, ReadableFiles};
use std::alloc::Global;
use std::process::ExitCode;
use streams::{LineSource, Sink};

/// Answers the lines of the input under the policies that the words name, and returns the exit
/// code. The program's name comes first. A refusal is one line on standard error; the exit code is
/// the same if that line cannot be written. `words` is `InvalidArguments` if an argument is not
/// UTF-8, and `Memory` if an allocation for them failed.
pub fn exit_code<F: ReadableFiles, R: LineSource, W: Sink, E: Sink>(
    alloc: Global,
    words: Result<Vec<String>, OrderError>,
    files: &mut F,
    requests: &mut R,
    answers: &mut W,
    refusals: &mut E,
) -> ExitCode
    ensures { let before = system (F.known files.old) (stream (R.left requests.old) (R.failed requests.old)) (stream (W.taken answers.old) (W.failed answers.old)) in
        let after = system (F.known files.new) (stream (R.left requests.new) (R.failed requests.new)) (stream (W.taken answers.new) (W.failed answers.new)) in
        let told = stream (E.taken refusals.old) (E.failed refusals.old) in
        let told_after = stream (E.taken refusals.new) (E.failed refusals.new) in
        GatekeeperResult OneImage (given_of words) before after told told_after (exit_status result) }
{
    match text_asked(&words) {
        Some(text) => exit_with(alloc, tell_text(text.as_bytes(), answers), refusals),
        None => match asked_order(alloc, words) {
            Ok(order) => perform(order, files, requests, answers, refusals),
            Err(error) => end_start(alloc, StartRefusal::from(error), refusals),
        },
    }
}

/// Does what is asked. Returns the code.
fn perform<F: ReadableFiles, R: LineSource, W: Sink, E: Sink>(
    order: Order,
    files: &mut F,
    requests: &mut R,
    answers: &mut W,
    refusals: &mut E,
) -> ExitCode
    ensures does { DoesOrder OneImage (F.known files.old) (lines_order_view order) (stream (R.left requests.old) (R.failed requests.old)) (stream (R.left requests.new) (R.failed requests.new))
        (stream (W.taken answers.old) (W.failed answers.old)) (stream (W.taken answers.new) (W.failed answers.new))
        (stream (E.taken refusals.old) (E.failed refusals.old)) (stream (E.taken refusals.new) (E.failed refusals.new)) (exit_status result) }
    ensures known { F.known files.new ≡ F.known files.old }
{
    match order {
        Order::Policies(order) => answer_under(&order, files, requests, answers, refusals),
        Order::Cluster(order) => answer_as_cluster(order, files, requests, answers, refusals),
        Order::Translation(order) => answer_translation(&order, files, answers, refusals),
    }
}

/// The order of the words, if they are given.
fn asked_order(alloc: Global, words: Result<Vec<String>, OrderError>) -> Result<Order, OrderError>
    ensures { AsksOrder (given_of words) result }
{
    let words = words?;
    let texts = texts_of(alloc, &words)?;
    order_of(alloc, texts.as_slice())
}
