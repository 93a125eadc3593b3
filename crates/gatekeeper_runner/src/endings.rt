//! How the program ends: after the lines, after a text, or by a start that is refused.
ghost use Rattle.std.specs.Prelude.{◌≡◌, ◌⊎◌};
ghost use Rattle.std.specs.Process.{exit_status};
ghost use Rattle.streams.specs.Streams.{stream};
ghost use Rattle.cli.specs.Refusals.{refusal_line};
ghost use Rattle.cli.specs.declared.refusal.Refusal.TheVariants.{Memory};
ghost use Rattle.line_answers.specs.Lines.{AnswersInputLine};
ghost use Rattle.gatekeeper_runner.specs.Endings.{answers_status, ending_of, AnswersOrTells, EndsLines, TellsBytes, TellsStart, TellsText};
ghost use Rattle.gatekeeper_runner.specs.Cluster.Starting.{fault_line};

use crate::cluster_fault::ClusterFault;
use crate::fault_line::fault_line;
use crate::settings::Settings;
use crate::start_refusal::StartRefusal;
use cli::{Refusal, exit_with, refusal_line};
use line_answers::{Decider, LineRules, answer_and_tell, answer_lines};
use std::alloc::Global;
use std::process::ExitCode;
use streams::{LineSource, SessionError, Sink, write_all};

/// Answers the lines by these rules, and reports refused ones if that is asked. Returns the code.
pub fn end_lines<D: Decider, R: LineSource, W: Sink, E: Sink>(
    rules: &LineRules<'_, D>,
    settings: Settings,
    requests: &mut R,
    answers: &mut W,
    errors: &mut E,
) -> ExitCode
    ensures { EndsLines settings.verbose settings.status (AnswersInputLine rules.now.max_line (D.refuses rules.now.decider.now) (D.decides rules.now.decider.now))
        (stream (R.left requests.old) (R.failed requests.old)) (stream (R.left requests.new) (R.failed requests.new))
        (stream (W.taken answers.old) (W.failed answers.old)) (stream (W.taken answers.new) (W.failed answers.new))
        (stream (E.taken errors.old) (E.failed errors.old)) (stream (E.taken errors.new) (E.failed errors.new)) (exit_status result) }
{
    let ended = answer_or_tell(rules, settings.verbose, requests, answers, errors);
    exit_with(rules.alloc, ending_of(settings.status, ended), errors)
}

/// Answers the lines, and reports refused ones or not.
fn answer_or_tell<D: Decider, R: LineSource, W: Sink, E: Sink>(
    rules: &LineRules<'_, D>,
    verbose: bool,
    requests: &mut R,
    answers: &mut W,
    errors: &mut E,
) -> Result<bool, SessionError>
    ensures { AnswersOrTells verbose (AnswersInputLine rules.now.max_line (D.refuses rules.now.decider.now) (D.decides rules.now.decider.now))
        (stream (R.left requests.old) (R.failed requests.old)) (stream (R.left requests.new) (R.failed requests.new))
        (stream (W.taken answers.old) (W.failed answers.old)) (stream (W.taken answers.new) (W.failed answers.new))
        (stream (E.taken errors.old) (E.failed errors.old)) (stream (E.taken errors.new) (E.failed errors.new)) result }
{
    if verbose {
        return answer_and_tell(rules, requests, answers, errors);
    }
    answer_lines(
        rules.alloc,
        rules.decider,
        rules.max_line,
        requests,
        answers,
    )
}

/// How the program ends, by whether its status reports answers that do not allow, and by the result
/// of answering the lines.
fn ending_of(reports: bool, ended: Result<bool, SessionError>) -> Result<u8, Refusal>
    ensures { result ≡ ending_of reports ended }
{
    match ended {
        Ok(all) => Ok(answers_status(reports, all)),
        Err(error) => Err(Refusal::from(error)),
    }
}

/// The status after all lines were answered, of which all allow or not.
fn answers_status(reports: bool, all: bool) -> u8
    ensures { result ≡ answers_status reports all }
{
    match (reports, all) {
        (true, false) => 1,
        (true, true) => 0,
        (false, _) => 0,
    }
}

/// Writes a text. Returns the status.
pub fn tell_text<W: Sink>(text: &[u8], answers: &mut W) -> Result<u8, Refusal>
    ensures { TellsText text.now (stream (W.taken answers.old) (W.failed answers.old)) (stream (W.taken answers.new) (W.failed answers.new)) result }
{
    match write_all(answers, text) {
        Ok(()) => Ok(0),
        Err(_) => Err(Refusal::Output),
    }
}

/// Writes the line of a start that is refused, and returns the code. If the line cannot be written,
/// the code is the same.
pub fn end_start<E: Sink>(alloc: Global, refusal: StartRefusal, errors: &mut E) -> ExitCode
    ensures { TellsStart (stream (E.taken errors.old) (E.failed errors.old)) (stream (E.taken errors.new) (E.failed errors.new)) (exit_status result) refusal }
{
    match refusal {
        StartRefusal::Plain(refusal) => exit_with(alloc, Err(refusal), errors),
        StartRefusal::Cluster(fault) => {
            tell_fault(alloc, &fault, errors);
            ExitCode::from(3)
        }
    }
}

/// Writes the line on a fault, or that memory ran out while it was made.
fn tell_fault<E: Sink>(alloc: Global, fault: &ClusterFault, errors: &mut E)
    ensures { TellsBytes (stream (E.taken errors.old) (E.failed errors.old)) (stream (E.taken errors.new) (E.failed errors.new)) (fault_line fault.now)
        ⊎ TellsBytes (stream (E.taken errors.old) (E.failed errors.old)) (stream (E.taken errors.new) (E.failed errors.new)) (refusal_line Memory) }
{
    match fault_line(alloc, fault) {
        Ok(line) => tell_bytes(line.as_slice(), errors),
        Err(_) => tell_memory(alloc, errors),
    }
}

/// Writes that memory ran out.
fn tell_memory<E: Sink>(alloc: Global, errors: &mut E)
    ensures { TellsBytes (stream (E.taken errors.old) (E.failed errors.old)) (stream (E.taken errors.new) (E.failed errors.new)) (refusal_line Memory) }
{
    let line = refusal_line(alloc, Refusal::Memory);
    tell_bytes(line.as_slice(), errors);
}

/// Writes bytes. A write that fails cannot be reported anywhere.
pub fn tell_bytes<E: Sink>(bytes: &[u8], errors: &mut E)
    ensures { TellsBytes (stream (E.taken errors.old) (E.failed errors.old)) (stream (E.taken errors.new) (E.failed errors.new)) bytes.now }
{
    let _ = write_all(errors, bytes);
}
