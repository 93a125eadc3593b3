//! The state of a session between its lines.
ghost use Rattle.std.specs.Prelude.{◌≡◌, ◌++◌, [], take};
ghost use Rattle.debugger.specs.Inspection.{StaysSized};
ghost use Rattle.debugger.specs.Transcript.{SessionGoesOn, TranscriptBreaks, TranscriptEnds};

use crate::answering::write_answer;
use crate::breakpoints::Breakpoints;
use arrayvec::ArrayVec;
use history::History;
use std::alloc::Global;
use streams::{Failed, Listener, Sink};

/// The number of bytes kept of a line, one more than a command may have: a longer line is
/// unknown, so its other bytes do not matter.
const KEPT: usize = 65;

/// The state of a session between two lines, and the part of the next line that was kept.
#[derive(Drop)]
pub struct Conversation<H: History> {
    alloc: Global,
    history: H,
    breakpoints: Breakpoints,
    line: ArrayVec<u8, KEPT>,
    ghost sized: { StaysSized (H.origin history) },
}

impl<H: History> Conversation<H> {
    /// A session before its first line, without breakpoints. Allocates nothing.
    pub fn new(alloc: Global, history: H) -> Conversation<H>
        requires { StaysSized (H.origin history) }
        ensures history { result.history ≡ history }
        ensures breakpoints { result.breakpoints ≡ [] }
        ensures line { result.line.items ≡ [] }
    {
        Conversation {
            alloc,
            history,
            breakpoints: Breakpoints::new(alloc),
            line: ArrayVec::new(),
        }
    }
}

impl<H: History> Listener for Conversation<H> {
    ghost goes = { λ c start before. SessionGoesOn (H.origin c.history) (H.origin start.history) before c.line.items c.breakpoints (H.place c.history) };

    ghost ended = { λ last c start. TranscriptEnds last (H.origin start.history) };

    ghost broke = { λ last c start. TranscriptBreaks last (H.origin start.history) };

    fn keep(&mut self, part: &[u8]) {
        keep_start(&mut self.line, part);
    }

    fn hear<W: Sink>(&mut self, rest: &[u8], w: &mut W) -> Result<bool, Failed> {
        keep_start(&mut self.line, rest);
        let line = self.line.as_slice();
        match write_answer(
            self.alloc,
            &mut self.history,
            &mut self.breakpoints,
            w,
            line,
        ) {
            Ok(ended) => {
                self.line.clear();
                Ok(ended)
            }
            Err(failed) => Err(failed),
        }
    }

    fn hear_end<W: Sink>(&mut self, w: &mut W) -> Result<(), Failed> {
        let line = self.line.as_slice();
        if line.is_empty() {
            return Ok(());
        }
        match write_answer(
            self.alloc,
            &mut self.history,
            &mut self.breakpoints,
            w,
            line,
        ) {
            Ok(_) => Ok(()),
            Err(failed) => Err(failed),
        }
    }
}

/// Keeps the next part of a line, up to the line's 65th byte.
fn keep_start(line: &mut ArrayVec<u8, KEPT>, part: &[u8])
    ensures { line.new.items ≡ take 65 (line.old.items ++ part.now) }
{
    let room = KEPT - line.len();
    if part.len() <= room {
        let _all = line.try_extend_from_slice(part);
        return;
    }
    let _some = line.try_extend_from_slice(&part[..room]);
}
