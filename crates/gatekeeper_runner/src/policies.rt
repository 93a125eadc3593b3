//! The program under given policies.
ghost use Rattle.std.specs.Prelude.{◌≡◌};
ghost use Rattle.std.specs.Process.{exit_status};
ghost use Rattle.streams.specs.Streams.{stream};
ghost use Rattle.policy_glue.specs.OneImage.{OneImage};
ghost use Rattle.gatekeeper_runner.specs.Orders.{order_view};
ghost use Rattle.gatekeeper_runner.specs.Program.{PoliciesEnd};

pub mod answering;
mod errors;
pub mod gatekeeper;
mod joining;
pub mod named_gate;
pub mod order;
mod starting;
mod tally;

use crate::endings::{end_lines, end_start};
use host::ReadableFiles;
use line_answers::LineRules;
use order::PolicyOrder;
use starting::start;
use std::process::ExitCode;
use streams::{LineSource, Sink};

/// Answers the lines under the policies that the order names. Returns the code.
pub fn answer_under<F: ReadableFiles, R: LineSource, W: Sink, E: Sink>(
    order: &PolicyOrder,
    files: &mut F,
    requests: &mut R,
    answers: &mut W,
    errors: &mut E,
) -> ExitCode
    ensures ends { PoliciesEnd OneImage (F.known files.old) (order_view order.now) (stream (R.left requests.old) (R.failed requests.old)) (stream (R.left requests.new) (R.failed requests.new))
        (stream (W.taken answers.old) (W.failed answers.old)) (stream (W.taken answers.new) (W.failed answers.new))
        (stream (E.taken errors.old) (E.failed errors.old)) (stream (E.taken errors.new) (E.failed errors.new)) (exit_status result) }
    ensures known { F.known files.new ≡ F.known files.old }
{
    match start(order.alloc, order, files) {
        Ok(keeper) => {
            let rules = LineRules {
                alloc: keeper.alloc,
                decider: &keeper,
                max_line: keeper.max_line,
            };
            end_lines(&rules, order.settings, requests, answers, errors)
        }
        Err(refusal) => end_start(order.alloc, refusal, errors),
    }
}
