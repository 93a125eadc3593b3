//! Shows parts of the machine's current state.
ghost use Rattle.std.specs.Prelude.{◌≡◌, ◌≤◌, ◌&&◌, nat_le, ◌<◌, ◌^◌, ◌+◌, ◌%◌, ℕ, true, None, Ok, length, map, is_some, option_map, string_bytes, IfNone, IfOk, IfSome, OnErr};
ghost use Rattle.guest_memory.specs.Access.{constants_of, read_of};
ghost use Rattle.guest_memory.specs.declared.size.Size.TheVariants.{B};
ghost use Rattle.debugger.specs.Inspection.{HasRegions, IsSized, bytes_from, frames_text, memory_lines, memory_text, shown_bytes, value_at, value_line, value_text};
ghost use Rattle.debugger.specs.Replies.{reply_text};

use crate::answer_text::AnswerText;
use crate::reply::Reply;
use arrayvec::ArrayVec;
use guest_memory::laws::lent_is_bytes;
use guest_memory::{Regions, Size};
use history::Emulator;
use std::alloc::AllocError;
use value_store::ValueStore;

/// The value at a reference, or that the reference is invalid.
pub fn show_value<E: Emulator>(machine: &E, h: u64) -> Result<Reply, AllocError>
    ensures text { IfOk result (λ reply. reply_text reply ≡ value_text h (value_at (E.state machine.now) h)) }
    ensures refused { OnErr result (is_some (value_at (E.state machine.now) h) ≡ true) }
    ensures fits { length (E.state machine.now).values.values < 2 ^ 64 }
{
    let values = machine.values();
    if h >= values.len() {
        return Ok(Reply::Fixed(b"? range\n"));
    }
    let json = values.json(h)?;
    Ok(value_line(h, json))
}

/// The line of a reference and the text of its value.
#[tactic(auto, unfolding(crate::specs::Inspection::value_line))]
fn value_line(h: u64, json: String) -> Reply
    ensures { reply_text result ≡ value_line h (string_bytes json) }
{
    let mut head = AnswerText::new();
    head.push_value(h);
    Reply::Value(head, json)
}

/// The 1 to 256 bytes at an address, if all of them are in one region.
pub fn show_memory<E: Emulator>(machine: &E, address: u64, n: u64) -> Reply
    requires { IsSized (E.state machine.now) }
    ensures { reply_text result ≡ memory_text address (shown_bytes (E.state machine.now).memory address n) }
{
    show_bytes(machine.memory(), address, n)
}

/// The 1 to 256 bytes at an address of a memory, if all of them are in one region.
fn show_bytes<M: Regions>(memory: &M, address: u64, n: u64) -> Reply
    requires { HasRegions (M.bytes memory.now) }
    ensures { reply_text result ≡ memory_text address (shown_bytes (M.bytes memory.now) address n) }
{
    lent_is_bytes();
    if !is_count(n) {
        return Reply::Fixed(b"? range\n");
    }
    match memory.constants(address, n) {
        Some(bytes) => Reply::Text(memory_lines(address, bytes)),
        None => match read_bytes(memory, address, n) {
            Some(bytes) => Reply::Text(memory_lines(address, bytes.as_slice())),
            None => Reply::Fixed(b"? range\n"),
        },
    }
}

/// The maximum number of bytes that `m` shows.
const SHOWN_BYTES_LIMIT: u64 = 256;

fn is_count(n: u64) -> bool
    ensures { result ≡ (nat_le 1 n && nat_le n 256) }
{
    1 <= n && n <= SHOWN_BYTES_LIMIT
}

/// The lines of these bytes, which begin at this address.
fn memory_lines(address: u64, bytes: &[u8]) -> AnswerText
    requires { length bytes.now ≤ 256 }
    ensures { result ≡ memory_lines 16 address bytes.now }
{
    let mut text = AnswerText::new();
    text.push_memory(address, bytes);
    text
}

/// The `n` bytes at an address, if all of them are in one region other than the constants.
fn read_bytes<M: Regions>(memory: &M, address: u64, n: u64) -> Option<ArrayVec<u8, 256>>
    requires memory { HasRegions (M.bytes memory.now) }
    requires some { 0 < n }
    requires few { n ≤ 256 }
    requires elsewhere { constants_of (M.bytes memory.now) address n ≡ None }
    ensures bytes { option_map (λ b. b.items) result ≡ option_map (map (λ word. word % 256)) (bytes_from (M.bytes memory.now) address n) }
    ensures length { IfSome result (λ b. length b.items ≡ n) }
{
    let mut bytes = ArrayVec::new();
    for i in 0..n {
        match byte_behind(memory, address, i) {
            Some(byte) => bytes.push(byte),
            None => return None,
        }
    }
    Some(bytes)
}

/// The byte `i` bytes after an address, if there is one.
fn byte_behind<M: Regions>(memory: &M, address: u64, i: u64) -> Option<u8>
    ensures found { IfSome result (λ b. (word : ℕ) × (read_of (M.bytes memory.now) (address + i) B ≡ Ok word) × (b ≡ word % 256)) }
    ensures missing { IfNone result (address + i < 2 ^ 64 → (b : ℕ) → read_of (M.bytes memory.now) (address + i) B ≡ Ok b → ⊥) }
{
    let at = address.checked_add(i)?;
    match memory.read(at, Size::B) {
        Ok(word) => Some((word % 256) as u8),
        Err(_) => None,
    }
}

/// The records of the calls that have not returned.
pub fn show_frames<E: Emulator>(machine: &E) -> Reply
    requires { IsSized (E.state machine.now) }
    ensures { reply_text result ≡ frames_text (E.state machine.now).records }
{
    let mut text = AnswerText::new();
    text.push_frames(machine.records());
    Reply::Text(text)
}
