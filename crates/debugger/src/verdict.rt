//! Shows the verdict region.
ghost use Rattle.std.specs.Prelude.{◌≡◌, ◌≤◌, ◌+◌, ◌++◌, string_bytes, IfOk, OnOk};
ghost use Rattle.debugger.specs.Inspection.{HasRegions, IsSized};
ghost use Rattle.debugger.specs.Replies.{reply_text};
ghost use Rattle.debugger.specs.Verdict.{message_lines, verdict_line, verdict_text, verdict_word, word_line, word_lines};

use crate::reply::Reply;
use guest_memory::{Regions, Size, VERDICT};
use history::Emulator;
use std::alloc::{AllocError, Global};
use std::fmt::Write;

/// The offset in the verdict region of the words for validations.
const VALIDATIONS: u64 = 16;

/// The offset in the verdict region of the words for messages.
const MESSAGES: u64 = 528;

/// The outcome, the number of denials, and the words of validations and messages that are not 0.
#[tactic(auto, unfolding(crate::specs::Verdict::verdict_lines))]
pub fn show_verdict<E: Emulator>(alloc: Global, machine: &E) -> Result<Reply, AllocError>
    requires { IsSized (E.state machine.now) }
    ensures { IfOk result (λ reply. reply_text reply ≡ verdict_text (E.state machine.now)) }
{
    let memory = machine.memory();
    let mut text = String::new(alloc);
    push_verdict(&mut text, memory)?;
    push_words(&mut text, memory, "validation", VALIDATIONS)?;
    push_messages(&mut text, memory, machine.image().version())?;
    Ok(Reply::Lines(text))
}

/// Appends the line of the outcome and the number of denials.
#[tactic(auto, unfolding(crate::specs::Verdict::verdict_line))]
fn push_verdict<M: Regions>(text: &mut String, memory: &M) -> Result<(), AllocError>
    requires { HasRegions (M.bytes memory.now) }
    ensures { OnOk result (string_bytes text.new ≡ string_bytes text.old ++ verdict_line (M.bytes memory.now)) }
{
    let outcome = word_at(memory, 0);
    let denials = word_at(memory, 8);
    writeln!(text, "verdict {outcome} {denials}")?;
    Ok(())
}

/// Appends the words of the messages of an image of this version.
fn push_messages<M: Regions>(text: &mut String, memory: &M, version: u8) -> Result<(), AllocError>
    requires { HasRegions (M.bytes memory.now) }
    ensures { OnOk result (string_bytes text.new ≡ string_bytes text.old ++ message_lines version (M.bytes memory.now)) }
{
    if version == 2 {
        push_words(text, memory, "message", MESSAGES)?;
    }
    Ok(())
}

/// Appends a line for each word other than 0 of the 64 words from an offset of the verdict region on.
#[tactic(auto, using(crate::proofs::VerdictWords::words))]
fn push_words<M: Regions>(
    text: &mut String,
    memory: &M,
    name: &str,
    from: u64,
) -> Result<(), AllocError>
    requires regions { HasRegions (M.bytes memory.now) }
    requires inside { from + 512 ≤ 2048 }
    ensures { OnOk result (string_bytes text.new ≡ string_bytes text.old ++ word_lines name.now (M.bytes memory.now) from 64) }
{
    for i in 0..64u64 {
        push_word(text, name, i, word_at(memory, from + 8 * i))?;
    }
    Ok(())
}

/// Appends the line of a word with its number, unless the word is 0.
#[tactic(auto, unfolding(crate::specs::Verdict::word_line))]
fn push_word(text: &mut String, name: &str, i: u64, word: u64) -> Result<(), AllocError>
    ensures { OnOk result (string_bytes text.new ≡ string_bytes text.old ++ word_line name.now i word) }
{
    if word != 0 {
        writeln!(text, "{name} {i} {word}")?;
    }
    Ok(())
}

/// The word at an offset of the verdict region.
#[tactic(auto, using(crate::proofs::VerdictWords::word_read))]
fn word_at<M: Regions>(memory: &M, at: u64) -> u64
    requires regions { HasRegions (M.bytes memory.now) }
    requires inside { at + 8 ≤ 2048 }
    ensures { result ≡ verdict_word (M.bytes memory.now) at }
{
    match memory.read(VERDICT + at, Size::Dw) {
        Ok(word) => word,
        Err(_) => unreachable!(),
    }
}
