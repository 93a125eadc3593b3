//! Answers one line after another.
ghost use Rattle.std.specs.Prelude.{◌≡◌, ◌<◌, ◌&&◌, length, IfOk};
ghost use Rattle.streams.specs.Streams.{stream};
ghost use Rattle.line_answers.specs.Lines.{is_blank, line_of, passes, AnswersInputLine};
ghost use Rattle.line_answers.specs.AnsweredLines.{judged, AnswersInput, OfLine};
ghost use Rattle.line_answers.specs.Telling.{answer_bytes};

use crate::decider::Decider;
use crate::line::Line;
use std::alloc::{AllocError, Global};
use streams::{Failed, LineSource, Listener, SessionError, Sink, write_all};

/// What is written if an allocation for a line's answer fails.
pub const NO_MEMORY: &[u8] = b"{\"refused\":\"memory\"}\n";

/// Answers each line before the next is read, until the end of the input. A line of more than
/// `max_line` bytes is refused. At most the first 2^63 bytes of an input are read. Returns whether
/// all answers pass: each line has an answer that allows its request, or none.
///
/// # Errors
///
/// `ReadFailed` if a read failed, `WriteFailed` if a write failed or took no byte. Either ends it.
pub fn answer_lines<D: Decider, R: LineSource, W: Sink>(
    alloc: Global,
    decider: &D,
    max_line: u64,
    r: &mut R,
    w: &mut W,
) -> Result<bool, SessionError>
    ensures { let written = stream (W.taken w.old) (W.failed w.old) in
        let written_after = stream (W.taken w.new) (W.failed w.new) in
        let read = stream (R.left r.old) (R.failed r.old) in
        let read_after = stream (R.left r.new) (R.failed r.new) in
        AnswersInput (AnswersInputLine max_line (D.refuses decider.now) (D.decides decider.now)) read read_after written written_after result }
{
    let mut answers = Answers {
        alloc,
        decider,
        line: Line::new(alloc, max_line),
        pass: true,
    };
    let ended = r.hear_lines(&mut answers, w);
    judged(answers.pass, ended)
}

/// What answers the lines.
#[derive(Drop)]
pub struct Answers<'a, D> {
    alloc: Global,
    decider: &'a D,
    /// What is kept of the next line.
    line: Line,
    /// Whether all answers pass.
    pass: bool,
}

impl<'a, D: Decider> Listener for Answers<'a, D> {
    ghost use Rattle.line_answers.specs.AnsweredLines.{AnswersBreak, AnswersEnd, AnswersSoFar, answered};
    ghost use Rattle.line_answers.specs.Lines.{KeepsLine};
    ghost use Rattle.streams.specs.Lines.{cut};

    ghost goes = { λ a start before heard written. (a.decider.now ≡ start.decider.now)
        × AnswersSoFar (answered (AnswersInputLine start.line.most (D.refuses start.decider.now) (D.decides start.decider.now)) a.pass) before heard written × KeepsLine start.line.most a.line (cut heard).1 };

    ghost ended = { λ last a start before heard written. AnswersEnd last (answered (AnswersInputLine start.line.most (D.refuses start.decider.now) (D.decides start.decider.now)) a.pass) before heard written };

    ghost broke = { λ last a start before heard written. AnswersBreak last (AnswersInputLine start.line.most (D.refuses start.decider.now) (D.decides start.decider.now))
        (answered (AnswersInputLine start.line.most (D.refuses start.decider.now) (D.decides start.decider.now)) a.pass) before heard written };

    fn keep(&mut self, part: &[u8]) {
        self.line.extend(part);
    }

    fn hear<W: Sink>(&mut self, rest: &[u8], w: &mut W) -> Result<bool, Failed> {
        if self.line.is_empty() {
            let answer = answer_to(self.alloc, self.decider, self.line.most, rest);
            write_all(w, bytes_of(&answer))?;
            self.pass = pass_with(self.pass, bytes_of(&answer));
            return Ok(false);
        }
        self.line.extend(rest);
        let answer = answer_to_kept(self.alloc, self.decider, &self.line);
        write_all(w, bytes_of(&answer))?;
        self.pass = pass_with(self.pass, bytes_of(&answer));
        self.line.clear();
        Ok(false)
    }

    fn hear_end<W: Sink>(&mut self, w: &mut W) -> Result<(), Failed> {
        let answer = answer_to_kept(self.alloc, self.decider, &self.line);
        write_all(w, bytes_of(&answer))?;
        self.pass = pass_with(self.pass, bytes_of(&answer));
        Ok(())
    }
}

/// The answer to the line that is kept.
pub fn answer_to_kept<D: Decider>(
    alloc: Global,
    decider: &D,
    line: &Line,
) -> Result<Vec<u8>, AllocError>
    ensures { OfLine line.now (λ most bytes. AnswersInputLine most (D.refuses decider.now) (D.decides decider.now) bytes (answer_bytes result)) }
{
    if line.lacks {
        return Err(AllocError);
    }
    answer_to(alloc, decider, line.most, line.bytes.as_slice())
}

/// The answer to a line. It is empty if the line is empty or blank.
pub fn answer_to<D: Decider>(
    alloc: Global,
    decider: &D,
    max_line: u64,
    line: &[u8],
) -> Result<Vec<u8>, AllocError>
    ensures { AnswersInputLine max_line (D.refuses decider.now) (D.decides decider.now) line.now (answer_bytes result) }
{
    if line.is_empty() {
        return Ok(Vec::new(alloc));
    }
    answer_of(alloc, decider, max_line, line)
}

/// The bytes of an answer, or of the text for a failed allocation.
pub fn bytes_of(answer: &Result<Vec<u8>, AllocError>) -> &[u8]
    ensures { result.now ≡ answer_bytes answer.now }
{
    match answer {
        Ok(text) => text.as_slice(),
        Err(_) => NO_MEMORY,
    }
}

/// Whether all answers pass, after one more.
pub fn pass_with(pass: bool, answer: &[u8]) -> bool
    ensures { result ≡ (pass && passes answer.now) }
{
    pass && passes(answer)
}

/// Whether the answer allows its request, or the line has none.
#[tactic(auto, unfolding(crate::specs::Lines::allowing_text))]
fn passes(answer: &[u8]) -> bool
    ensures { result ≡ passes answer.now }
{
    answer.is_empty()
        || answer.starts_with(
            b"{\"apiVersion\":\"admission.k8s.io/v1\",\"kind\":\"AdmissionReview\",\"response\":{\"allowed\":true",
        )
}

/// The result of a loop that ended so, by whether all answers pass.
pub fn judged(pass: bool, ended: Result<(), SessionError>) -> Result<bool, SessionError>
    ensures { result ≡ judged pass ended }
{
    match ended {
        Ok(()) => Ok(pass),
        Err(error) => Err(error),
    }
}

/// The answer to a line that is not empty, with its line feed; nothing if the line is blank.
fn answer_of<D: Decider>(
    alloc: Global,
    decider: &D,
    max_line: u64,
    line: &[u8],
) -> Result<Vec<u8>, AllocError>
    ensures { IfOk result (λ text. 0 < length line.now → AnswersInputLine max_line (D.refuses decider.now) (D.decides decider.now) line.now text.items) }
{
    if line.len() as u64 > max_line {
        return with_line_feed(decider.refusal()?);
    }
    if is_blank(line) {
        return Ok(Vec::new(alloc));
    }
    with_line_feed(decider.answer(line)?)
}

/// Whether every byte is a space, a tab or a carriage return.
fn is_blank(line: &[u8]) -> bool
    ensures { result ≡ is_blank line.now }
{
    line.iter()
        .all(|byte| *byte == b' ' || *byte == b'\t' || *byte == b'\r')
}

/// The text with a line feed.
fn with_line_feed(text: Vec<u8>) -> Result<Vec<u8>, AllocError>
    ensures { IfOk result (λ line. line.items ≡ line_of text.items) }
{
    let mut line = text;
    line.push(b'\n')?;
    Ok(line)
}
