//! The lines of code that a session lists.
ghost use Rattle.std.specs.Prelude.{◌≡◌, ◌<◌, ◌++◌, true, None, string_bytes, IfOk, OnErr};
ghost use Rattle.bpf_machine.specs.Decoding.{slot_count};
ghost use Rattle.disassembler.specs.Answers.{refusal_of};
ghost use Rattle.insn_codec.specs.Statements.{statement_slots, statement_text};
ghost use Rattle.debugger.specs.Listing.{IsPlaced, is_inside, listing_line, listing_lines, listing_text, statement_at};
ghost use Rattle.debugger.specs.Replies.{reply_text};

use crate::answer_text::AnswerText;
use crate::reply::Reply;
use disassembler::{DisError, line_at};
use history::Emulator;
use std::alloc::{AllocError, Global};
use std::fmt::Write;

/// The code at the current state: up to eight lines from `pc` on, or that `pc` is outside.
pub fn list<E: Emulator>(alloc: Global, machine: &E) -> Result<Reply, AllocError>
    ensures text { IfOk result (λ reply. reply_text reply ≡ listing_text (E.state machine.now)) }
    ensures refused { OnErr result (is_inside (E.state machine.now).image.code (E.state machine.now).pc ≡ true) }
{
    let pc = machine.pc();
    let code = machine.image().code();
    match slot_inside(code, pc) {
        Some(slot) => Ok(Reply::Lines(listing(alloc, code, slot)?)),
        None => {
            let mut text = AnswerText::new();
            text.push_outside(pc);
            Ok(Reply::Text(text))
        }
    }
}

/// The slot of `pc`, if the code has it.
fn slot_inside(code: &[u8], pc: i64) -> Option<u64>
    ensures { IsPlaced code.now pc result }
{
    if pc < 0 {
        return None;
    }
    let slot = pc.cast_unsigned();
    if slot < (code.len() / 8) as u64 {
        Some(slot)
    } else {
        None
    }
}

/// Up to eight lines of the code from a slot on.
#[tactic(auto, using(crate::proofs::Lines::listed))]
fn listing(alloc: Global, code: &[u8], slot: u64) -> Result<String, AllocError>
    requires { refusal_of code.now ≡ None }
    ensures { IfOk result (λ text. string_bytes text ≡ listing_lines 8 code.now slot) }
{
    let slots = (code.len() / 8) as u64;
    let mut text = String::new(alloc);
    let mut slot = slot;
    for _listed in 0..8u64 {
        if slot >= slots {
            return Ok(text);
        }
        slot += push_line(alloc, &mut text, code, slot)?;
    }
    Ok(text)
}

/// Appends the line of the statement at a slot, and returns the number of its slots.
#[tactic(auto, unfolding(crate::specs::Listing::listing_line))]
fn push_line(alloc: Global, text: &mut String, code: &[u8], slot: u64) -> Result<u64, AllocError>
    requires listed { refusal_of code.now ≡ None }
    requires inside { slot < slot_count code.now }
    ensures text { IfOk result (λ slots. string_bytes text.new ≡ string_bytes text.old ++ listing_line code.now slot) }
    ensures slots { IfOk result (λ slots. slots ≡ statement_slots (statement_at code.now slot)) }
{
    let (line, slots) = line_of(alloc, code, slot)?;
    writeln!(text, "{slot} {line}")?;
    Ok(slots)
}

/// The line of the statement at a slot, and the number of its slots.
fn line_of(alloc: Global, code: &[u8], slot: u64) -> Result<(String, u64), AllocError>
    requires listed { refusal_of code.now ≡ None }
    requires inside { slot < slot_count code.now }
    ensures text { IfOk result (λ line. string_bytes line.0 ≡ statement_text (statement_at code.now slot)) }
    ensures slots { IfOk result (λ line. line.1 ≡ statement_slots (statement_at code.now slot)) }
{
    match line_at(alloc, code, slot) {
        Ok(line) => Ok(line),
        Err(DisError::Memory) => Err(AllocError),
        Err(DisError::PartialSlot | DisError::CodeTooLong) => unreachable!(),
    }
}
