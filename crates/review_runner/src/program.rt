//! The program, from its words to its exit code.
ghost use Rattle.std.specs.Prelude.{◌≡◌, false, Err, map, string_bytes};
ghost use Rattle.std.specs.Process.{exit_status};
ghost use Rattle.policy_glue.specs.OneImage.{OneImage};
ghost use Rattle.review_runner.specs.Order.{is_session, order_view, OrderReturns};
ghost use Rattle.cli.specs.Ending.{ending_line, given_of, system, Ending, WritesError};
ghost use Rattle.review_runner.specs.Program.{AnswersOrder, ProgramEffect, DoesOrder, ProgramResult, EndsBy, Puts};
ghost use Rattle.streams.specs.Streams.{stream};

use crate::command_line::order::Order;
use crate::command_line::reader::order;
use crate::done::Done;
use crate::images::debugging::debug;
use crate::performing::perform;
use admission::laws::runs_end_once;
use cli::{Refusal, exit_with, texts_of};
use host::{Files, OrderError};
use policy_glue::laws::compiles_once;
use std::alloc::Global;
use std::process::ExitCode;
use streams::{Failed, Sink, Source, write_all};

/// Carries out what the words ask for, and returns the exit code. The program's name comes first. A
/// refusal is one line on standard error; the exit code is the same if that line cannot be written.
/// `words` is `InvalidArguments` if an argument is not UTF-8, and `Memory` if an allocation for
/// them failed.
pub fn exit_code<F: Files, R: Source, W: Sink, E: Sink>(
    alloc: Global,
    words: Result<Vec<String>, OrderError>,
    files: &mut F,
    input: &mut R,
    output: &mut W,
    errors: &mut E,
) -> ExitCode
    ensures { let before = system (F.known files.old) (stream (R.left input.old) (R.failed input.old)) (stream (W.taken output.old) (W.failed output.old)) in
        let after = system (F.known files.new) (stream (R.left input.new) (R.failed input.new)) (stream (W.taken output.new) (W.failed output.new)) in
        let told = stream (E.taken errors.old) (E.failed errors.old) in
        let told_after = stream (E.taken errors.new) (E.failed errors.new) in
        ProgramResult OneImage (given_of words) before after told told_after (exit_status result) }
{
    compiles_once();
    runs_end_once();
    match ending(alloc, words, files, input, output) {
        Ok(done) => left(&done, errors),
        Err(refusal) => exit_with(alloc, Err(refusal), errors),
    }
}

/// Writes the output for standard error and returns the exit code. The code is the same if the
/// write fails.
#[tactic(auto, using(cli::proofs::Endings::says))]
fn left<E: Sink>(done: &Done, errors: &mut E) -> ExitCode
    ensures status { exit_status result ≡ done.now.status }
    ensures says { let told = stream (E.taken errors.old) (E.failed errors.old) in
        let told_after = stream (E.taken errors.new) (E.failed errors.new) in
        (ending : Ending) → done.now.err.items ≡ ending_line ending → WritesError told told_after ending }
{
    let _ = write_all(errors, done.err.as_slice());
    ExitCode::from(done.status)
}

/// Carries out what the words ask for; returns the output for standard error.
fn ending<F: Files, R: Source, W: Sink>(
    alloc: Global,
    words: Result<Vec<String>, OrderError>,
    files: &mut F,
    input: &mut R,
    output: &mut W,
) -> Result<Done, Refusal>
    ensures { let before = system (F.known files.old) (stream (R.left input.old) (R.failed input.old)) (stream (W.taken output.old) (W.failed output.old)) in
        let after = system (F.known files.new) (stream (R.left input.new) (R.failed input.new)) (stream (W.taken output.new) (W.failed output.new)) in
        EndsBy (ProgramEffect OneImage (given_of words) before after) result }
{
    let words = words?;
    let asked = asked_order(alloc, &words)?;
    done(alloc, &asked, files, input, output)
}

/// Carries out the order; returns the output for standard error.
fn done<F: Files, R: Source, W: Sink>(
    alloc: Global,
    order: &Order,
    files: &mut F,
    input: &mut R,
    output: &mut W,
) -> Result<Done, Refusal>
    ensures { let before = system (F.known files.old) (stream (R.left input.old) (R.failed input.old)) (stream (W.taken output.old) (W.failed output.old)) in
        let after = system (F.known files.new) (stream (R.left input.new) (R.failed input.new)) (stream (W.taken output.new) (W.failed output.new)) in
        EndsBy (DoesOrder OneImage before after (order_view order.now)) result }
{
    match order {
        Order::Compile { .. }
        | Order::Review { .. }
        | Order::RunImage { .. }
        | Order::Assemble { .. }
        | Order::List { .. } => answer(alloc, order, files, output),
        Order::Debug { image, documents } => {
            debug(alloc, image.as_str(), documents, files, input, output)?;
            Ok(Done::nothing(alloc))
        }
    }
}

/// Carries out an order other than a session, writes its output for standard output, and returns
/// all its output.
fn answer<F: Files, W: Sink>(
    alloc: Global,
    order: &Order,
    files: &mut F,
    output: &mut W,
) -> Result<Done, Refusal>
    requires { is_session (order_view order.now) ≡ false }
    ensures { let written = stream (W.taken output.old) (W.failed output.old) in
        let written_after = stream (W.taken output.new) (W.failed output.new) in
        EndsBy (AnswersOrder OneImage (F.known files.old) (F.known files.new) (order_view order.now) written written_after) result }
{
    let done = perform(alloc, order, files)?;
    match put(&done.out, output) {
        Ok(()) => Ok(done),
        Err(Failed) => Err(Refusal::File),
    }
}

/// Writes the bytes; nothing if there are none.
fn put<W: Sink>(bytes: &[u8], output: &mut W) -> Result<(), Failed>
    ensures { Puts (stream (W.taken output.old) (W.failed output.old)) (stream (W.taken output.new) (W.failed output.new)) bytes.now result }
{
    if bytes.is_empty() {
        return Ok(());
    }
    write_all(output, bytes)
}

/// Reads the command line.
fn asked_order(alloc: Global, words: &[String]) -> Result<Order, OrderError>
    ensures { OrderReturns (map string_bytes words.now) result }
{
    let texts = texts_of(alloc, words)?;
    order(alloc, texts.as_slice())
}
