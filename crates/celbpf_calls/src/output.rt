//! The output of a call: a status, and a text in the caller's buffer.
ghost use Rattle.std.specs.Prelude.{◌≡◌, ◌⊎◌, length, nat_le};
ghost use Rattle.cli.specs.Refusals.{refusal_line};
ghost use Rattle.admission.specs.Deciding.{answer_view};
ghost use Rattle.admission.specs.declared.wide_refusal.WideRefusal.TheVariants.{Memory};
ghost use Rattle.celbpf_calls.specs.Output.{Writes, WritesDecision, WritesDone, WritesReply, WritesWideRefusal};

use crate::statuses::{run_status, wide_status};
use admission::{Reply, RunError, WideRefusal};
use cli::{Refusal, refusal_line, wide_line};
use std::alloc::Global;

/// Writes the result of a review, its response or the line of its refusal, and returns the status.
pub fn write_answer(
    alloc: Global,
    answer: Result<Reply, RunError>,
    room: &mut [u8],
    len: &mut usize,
) -> u32
    ensures { WritesDecision (answer_view answer) result room.old room.new len.new }
{
    match answer {
        Ok(reply) => write_reply(&reply.response, reply.allowed, room, len),
        Err(error) => {
            write_refusal(alloc, Refusal::from(error), room, len);
            run_status(error)
        }
    }
}

/// Writes a response and returns the status.
fn write_reply(response: &[u8], allowed: bool, room: &mut [u8], len: &mut usize) -> u32
    ensures { WritesReply response.now allowed result room.old room.new len.new }
{
    if !write_text(response, room, len) {
        8
    } else if allowed {
        0
    } else {
        1
    }
}

/// Writes the text of a call that is done and returns the status.
pub fn write_done(text: &[u8], room: &mut [u8], len: &mut usize) -> u32
    ensures { WritesDone text.now result room.old room.new len.new }
{
    if write_text(text, room, len) { 0 } else { 8 }
}

/// Writes the line of a refusal, as the program `celbpf` prints it.
pub fn write_refusal(alloc: Global, refusal: Refusal, room: &mut [u8], len: &mut usize)
    ensures { Writes (refusal_line refusal) room.old room.new len.new }
{
    let line = refusal_line(alloc, refusal);
    write_text(line.as_slice(), room, len);
}

/// Writes the line of a refusal of a policy in the wide language, as the program `gatekeeper` prints
/// it but for the name of its file, or that memory ran out while it was made. Returns the status.
pub fn write_wide_refusal(
    alloc: Global,
    refusal: &WideRefusal,
    room: &mut [u8],
    len: &mut usize,
) -> u32
    ensures { WritesWideRefusal refusal.now result room.old room.new len.new ⊎ WritesWideRefusal Memory result room.old room.new len.new }
{
    match wide_line(alloc, refusal) {
        Ok(line) => {
            write_text(line.as_slice(), room, len);
            wide_status(refusal)
        }
        Err(_) => {
            write_refusal(alloc, Refusal::Memory, room, len);
            9
        }
    }
}

/// Writes the text to the beginning of the buffer and returns whether it fits. If it does not, the
/// buffer is unchanged. The length is set to the text's length in both cases.
fn write_text(text: &[u8], room: &mut [u8], len: &mut usize) -> bool
    ensures writes { Writes text.now room.old room.new len.new }
    ensures fits { result ≡ nat_le (length text.now) (length room.old) }
{
    *len = text.len();
    if room.len() < text.len() {
        return false;
    }
    let (front, _) = room.split_at_mut(text.len());
    front.copy_from_slice(text);
    true
}
