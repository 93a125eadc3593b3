//! Reads reviews line by line and writes an answer to each.
ghost use Rattle.std.specs.Prelude.{◌≡◌, IfOk};
ghost use Rattle.streams.specs.Streams.{stream};
ghost use Rattle.policy_glue.specs.OneImage.{OneImage};
ghost use Rattle.gatekeeper_runner.specs.Policies.Lines.{answer_text, AnswersLines, UnderPolicies};
ghost use Rattle.gatekeeper_runner.specs.Refusals.{too_long_text};
ghost use Rattle.gatekeeper_runner.specs.Policies.Together.{together_view};

use crate::policies::gatekeeper::Gatekeeper;
use crate::refused::Refused;
use crate::refusing::{line_refusal_text, too_long_text};
use admission::Decision;
use line_answers::Decider;
use policy_glue::into_response_text;
use std::alloc::{AllocError, Global};
use streams::{LineSource, SessionError, Sink};

/// Answers each line before it reads the next, until the end of the input. At most the first 2^63
/// bytes of the input are read. Returns whether each line has an answer that allows, or none.
///
/// # Errors
///
/// `ReadFailed` if a read failed, `WriteFailed` if a write failed or took no byte. Either ends it.
pub fn answer_lines<R: LineSource, W: Sink>(
    keeper: &Gatekeeper,
    r: &mut R,
    w: &mut W,
) -> Result<bool, SessionError>
    ensures { let written = stream (W.taken w.old) (W.failed w.old) in
        let written_after = stream (W.taken w.new) (W.failed w.new) in
        let read = stream (R.left r.old) (R.failed r.old) in
        let read_after = stream (R.left r.new) (R.failed r.new) in
        UnderPolicies keeper.now (λ t. AnswersLines OneImage t read read_after written written_after result) }
{
    line_answers::answer_lines(keeper.alloc, keeper, keeper.max_line, r, w)
}

impl Decider for Gatekeeper {
    ghost use Rattle.gatekeeper_runner.specs.Policies.Lines.{DecidesLine};

    ghost decides = { λ keeper line text. UnderPolicies keeper (λ t. DecidesLine OneImage t line text) };

    ghost refuses = { λ _. too_long_text };

    fn answer(&self, line: &[u8]) -> Result<Vec<u8>, AllocError> {
        let outcome = self.decision(line)?;
        outcome_text(self.alloc, outcome, line)
    }

    fn refusal(&self) -> Result<Vec<u8>, AllocError> {
        too_long_text(self.alloc)
    }
}

/// The text of a decision or a refusal of the review in a line.
fn outcome_text(
    alloc: Global,
    outcome: Result<Decision, Refused>,
    line: &[u8],
) -> Result<Vec<u8>, AllocError>
    ensures { IfOk result (λ text. text.items ≡ answer_text line.now (together_view outcome)) }
{
    match outcome {
        Ok(Decision { rejection, uid }) => into_response_text(alloc, rejection, uid.as_str()),
        Err(refused) => line_refusal_text(alloc, &refused, line),
    }
}
