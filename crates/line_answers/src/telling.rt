//! Answers one line after another, and reports those that are refused.
ghost use Rattle.std.specs.Prelude.{◌≡◌};
ghost use Rattle.streams.specs.Streams.{stream};
ghost use Rattle.line_answers.specs.Lines.{AnswersInputLine};
ghost use Rattle.line_answers.specs.Telling.{TellsInput};

use crate::answering::{answer_to, answer_to_kept, bytes_of, judged, pass_with};
use crate::decider::Decider;
use crate::line::Line;
use crate::line_rules::LineRules;
use crate::teller::Teller;
use std::alloc::Global;
use streams::{Failed, LineSource, Listener, SessionError, Sink, write_all};

/// Answers the lines as `answer_lines` does, and reports each refused line on `e`. If a write to
/// `e` fails, nothing more is reported, and the lines are answered as before. Returns whether all
/// answers pass.
///
/// # Errors
///
/// `ReadFailed` if a read failed and `WriteFailed` if a write of an answer failed or took no byte.
/// Either ends it.
pub fn answer_and_tell<D: Decider, R: LineSource, W: Sink, E: Sink>(
    rules: &LineRules<'_, D>,
    r: &mut R,
    w: &mut W,
    e: &mut E,
) -> Result<bool, SessionError>
    ensures { let written = stream (W.taken w.old) (W.failed w.old) in
        let written_after = stream (W.taken w.new) (W.failed w.new) in
        let read = stream (R.left r.old) (R.failed r.old) in
        let read_after = stream (R.left r.new) (R.failed r.new) in
        let told = stream (E.taken e.old) (E.failed e.old) in
        let told_after = stream (E.taken e.new) (E.failed e.new) in
        TellsInput (AnswersInputLine rules.now.max_line (D.refuses rules.now.decider.now) (D.decides rules.now.decider.now)) read read_after written written_after told told_after result }
{
    let mut answers = TellingAnswers {
        alloc: rules.alloc,
        decider: rules.decider,
        line: Line::new(rules.alloc, rules.max_line),
        pass: true,
        teller: Teller::new(e),
    };
    let ended = r.hear_lines(&mut answers, w);
    let TellingAnswers {
        alloc: _,
        decider: _,
        line,
        pass,
        teller,
    } = answers;
    // What owns memory is dropped before `e` is read: it would keep `e` borrowed.
    drop(line);
    let Teller {
        errors,
        count: _,
        failed: _,
    } = teller;
    // No effect at run time. The proof reads what `e` holds from this use of `errors`.
    let _ = &*errors;
    judged(pass, ended)
}

/// Answers the lines and reports those that are refused.
#[derive(Drop)]
pub struct TellingAnswers<'a, 'e, D, E> {
    alloc: Global,
    decider: &'a D,
    /// What is kept of the next line.
    line: Line,
    /// Whether all answers pass.
    pass: bool,
    teller: Teller<'e, E>,
}

impl<'a, 'e, D: Decider, E: Sink> Listener for TellingAnswers<'a, 'e, D, E> {
    ghost use Rattle.std.specs.Prelude.{◌≤◌, ◌^◌, length};
    ghost use Rattle.line_answers.specs.Lines.{KeepsLine};
    ghost use Rattle.line_answers.specs.Telling.{TellsBreak, TellsEnd, TellsSoFar};
    ghost use Rattle.streams.specs.Lines.{cut};

    ghost goes = { λ a start before heard written. (a.decider.now ≡ start.decider.now) × (a.teller.errors.ghost_name ≡ start.teller.errors.ghost_name)
        × KeepsLine start.line.most a.line (cut heard).1
        × (length heard ≤ 2 ^ 63 → TellsSoFar (AnswersInputLine start.line.most (D.refuses start.decider.now) (D.decides start.decider.now)) a.pass a.teller.count a.teller.failed
        (stream (E.taken start.teller.errors.now) (E.failed start.teller.errors.now)) (stream (E.taken a.teller.errors.now) (E.failed a.teller.errors.now)) before heard written) };

    ghost ended = { λ last a start before heard written. (a.teller.errors.ghost_name ≡ start.teller.errors.ghost_name)
        × (length heard ≤ 2 ^ 63 → TellsEnd last (AnswersInputLine start.line.most (D.refuses start.decider.now) (D.decides start.decider.now)) a.pass
        (stream (E.taken start.teller.errors.now) (E.failed start.teller.errors.now)) (stream (E.taken a.teller.errors.now) (E.failed a.teller.errors.now)) before heard written) };

    ghost broke = { λ last a start before heard written. (a.teller.errors.ghost_name ≡ start.teller.errors.ghost_name)
        × (length heard ≤ 2 ^ 63 → TellsBreak last (AnswersInputLine start.line.most (D.refuses start.decider.now) (D.decides start.decider.now)) a.pass
        (stream (E.taken start.teller.errors.now) (E.failed start.teller.errors.now)) (stream (E.taken a.teller.errors.now) (E.failed a.teller.errors.now)) before heard written) };

    fn keep(&mut self, part: &[u8]) {
        self.line.extend(part);
    }

    fn hear<W: Sink>(&mut self, rest: &[u8], w: &mut W) -> Result<bool, Failed> {
        if self.line.is_empty() {
            let answer = answer_to(self.alloc, self.decider, self.line.most, rest);
            write_all(w, bytes_of(&answer))?;
            self.teller.tell(bytes_of(&answer));
            self.pass = pass_with(self.pass, bytes_of(&answer));
            return Ok(false);
        }
        self.line.extend(rest);
        let answer = answer_to_kept(self.alloc, self.decider, &self.line);
        write_all(w, bytes_of(&answer))?;
        self.teller.tell(bytes_of(&answer));
        self.pass = pass_with(self.pass, bytes_of(&answer));
        self.line.clear();
        Ok(false)
    }

    fn hear_end<W: Sink>(&mut self, w: &mut W) -> Result<(), Failed> {
        let answer = answer_to_kept(self.alloc, self.decider, &self.line);
        write_all(w, bytes_of(&answer))?;
        self.teller.tell(bytes_of(&answer));
        self.pass = pass_with(self.pass, bytes_of(&answer));
        Ok(())
    }
}
