//! Replies to lines.
ghost use Rattle.std.specs.Prelude.{◌≡◌, false, true, not, ◌&&◌, codes, if◌then◌else◌, IfOk, OnErr, OnOk};
ghost use Rattle.bpf_machine.specs.Text.{registers_text};
ghost use Rattle.bpf_machine.specs.Trace.{state_after};
ghost use Rattle.debugger.specs.Answers.{answer_of, break_text, clear_text, is_slot, may_be_refused, session_state_at};
ghost use Rattle.debugger.specs.Breakpoints.{has_breakpoint, with_breakpoint, without_breakpoint};
ghost use Rattle.debugger.specs.Commands.{FitsWords, is_quit};
ghost use Rattle.debugger.specs.Inspection.{StaysSized};
ghost use Rattle.debugger.specs.Replies.{reply_text};
ghost use Rattle.streams.specs.Streams.{one_more};
ghost use Rattle.debugger.specs.Transcript.{AnswersLine, WritesAnswer, WritesPartOfAnswer};

use crate::answer_text::AnswerText;
use crate::breakpoints::Breakpoints;
use crate::command::Command;
use crate::inspecting::{show_frames, show_memory, show_value};
use crate::listing::list;
use crate::moves::{back, continue_back, continue_on, forward, go_to};
use crate::reply::{Answer, Reply};
use crate::transfer::write_reply;
use crate::verdict::show_verdict;
use history::{Emulator, History};
use insn_codec::SLOT_LIMIT;
use std::alloc::{AllocError, Global};
use streams::{Failed, Sink};

/// Writes the reply to a line, and returns whether the session has ended.
pub fn write_answer<H: History, W: Sink>(
    alloc: Global,
    h: &mut H,
    breakpoints: &mut Breakpoints,
    w: &mut W,
    line: &[u8],
) -> Result<bool, Failed>
    requires { StaysSized (H.origin h.old) }
    ensures heard { IfOk result (λ ended. WritesAnswer (H.origin h.old)
        (session_state_at breakpoints.old (H.place h.old) false) line.now
        (session_state_at breakpoints.new (H.place h.new) ended)
        (W.taken w.old) (W.taken w.new)) }
    ensures part { OnErr result (WritesPartOfAnswer (H.origin h.old)
        (session_state_at breakpoints.old (H.place h.old) false) line.now
        (W.taken w.old) (W.taken w.new)) }
    ensures origin { H.origin h.new ≡ H.origin h.old }
    ensures ok { OnOk result (W.failed w.new ≡ W.failed w.old) }
    ensures err { OnErr result (W.failed w.new ≡ one_more (W.failed w.old)) }
{
    let answer = answer_line(alloc, h, breakpoints, line);
    write_reply(w, &answer.reply)?;
    Ok(answer.ended)
}

/// Makes the complete reply to a line.
fn answer_line<H: History>(
    alloc: Global,
    h: &mut H,
    breakpoints: &mut Breakpoints,
    line: &[u8],
) -> Answer
    requires { StaysSized (H.origin h.old) }
    ensures answers { AnswersLine (H.origin h.old)
        (session_state_at breakpoints.old (H.place h.old) false) line.now
        (session_state_at breakpoints.new (H.place h.new) result.ended)
        (reply_text result.reply) }
    ensures origin { H.origin h.new ≡ H.origin h.old }
{
    let command = Command::of(line);
    match execute(alloc, h, breakpoints, command) {
        Ok(reply) => Answer {
            reply,
            ended: is_quit(command),
        },
        Err(_) => Answer {
            reply: Reply::Fixed(b"? memory\n"),
            ended: false,
        },
    }
}

fn is_quit(command: Command) -> bool
    ensures { result ≡ is_quit command }
{
    matches!(command, Command::Quit)
}

/// Executes a command. If an allocation fails, nothing has changed.
#[tactic(auto, unfolding(crate::specs::Answers::answer_of, crate::specs::Answers::may_be_refused))]
fn execute<H: History>(
    alloc: Global,
    h: &mut H,
    breakpoints: &mut Breakpoints,
    command: Command,
) -> Result<Reply, AllocError>
    requires { StaysSized (H.origin h.old) }
    ensures next { OnOk result
        ((answer_of (H.origin h.old) (session_state_at breakpoints.old (H.place h.old) false) command).next
        ≡ session_state_at breakpoints.new (H.place h.new) (is_quit command)) }
    ensures text { IfOk result (λ reply. (answer_of (H.origin h.old) (session_state_at breakpoints.old (H.place h.old) false) command).text ≡ reply_text reply) }
    ensures refused { OnErr result (may_be_refused (H.origin h.old) (session_state_at breakpoints.old (H.place h.old) false) command ≡ true) }
    ensures err_place { OnErr result (H.place h.new ≡ H.place h.old) }
    ensures err_breakpoints { OnErr result (breakpoints.new ≡ breakpoints.old) }
    ensures origin { H.origin h.new ≡ H.origin h.old }
    ensures fits { FitsWords (state_after (H.place h.old) (H.origin h.old)) command }
{
    match command {
        Command::SetBreakpoint(slot) => set_breakpoint(breakpoints, slot),
        Command::ClearBreakpoint(slot) => Ok(clear_breakpoint(breakpoints, slot)),
        Command::Forward(n) => forward(h, n),
        Command::Back(n) => back(h, n),
        Command::Go(k) => go_to(h, k),
        Command::Continue(n) => continue_on(h, breakpoints.as_slice(), n),
        Command::ReverseContinue => continue_back(h, breakpoints.as_slice()),
        Command::Registers => Ok(registers(h.machine())),
        Command::ValueAt(at) => show_value(h.machine(), at),
        Command::MemoryAt(address, n) => Ok(show_memory(h.machine(), address, n)),
        Command::Frames => Ok(show_frames(h.machine())),
        Command::Listing => list(alloc, h.machine()),
        Command::Verdict => show_verdict(alloc, h.machine()),
        Command::Quit => Ok(Reply::Fixed(b"")),
        Command::Unknown => Ok(Reply::Fixed(b"? what\n")),
    }
}

fn registers<E: Emulator>(machine: &E) -> Reply
    ensures { reply_text result ≡ registers_text (E.state machine.now) }
{
    let mut text = AnswerText::new();
    text.push_registers(machine);
    Reply::Text(text)
}

/// Sets a breakpoint at a slot, if code can have this slot.
fn set_breakpoint(breakpoints: &mut Breakpoints, slot: u64) -> Result<Reply, AllocError>
    ensures slots { OnOk result (breakpoints.new ≡ (if is_slot slot then with_breakpoint slot breakpoints.old else breakpoints.old)) }
    ensures text { IfOk result (λ reply. reply_text reply ≡ (if is_slot slot then break_text slot else codes "? range\n")) }
    ensures refused { OnErr result (is_slot slot && not (has_breakpoint slot breakpoints.old) ≡ true) }
    ensures err { OnErr result (breakpoints.new ≡ breakpoints.old) }
{
    if !is_slot(slot) {
        return Ok(Reply::Fixed(b"? range\n"));
    }
    breakpoints.set(slot)?;
    let mut text = AnswerText::new();
    text.push_break(slot);
    Ok(Reply::Text(text))
}

/// Clears the breakpoint at a slot, if code can have this slot.
fn clear_breakpoint(breakpoints: &mut Breakpoints, slot: u64) -> Reply
    ensures slots { breakpoints.new ≡ (if is_slot slot then without_breakpoint slot breakpoints.old else breakpoints.old) }
    ensures text { reply_text result ≡ (if is_slot slot then clear_text slot else codes "? range\n") }
{
    if !is_slot(slot) {
        return Reply::Fixed(b"? range\n");
    }
    breakpoints.clear(slot);
    let mut text = AnswerText::new();
    text.push_clear(slot);
    Reply::Text(text)
}

fn is_slot(slot: u64) -> bool
    ensures { result ≡ is_slot slot }
{
    slot <= u64::from(SLOT_LIMIT) - 1
}
