//! Reports the lines that are refused.
ghost use Rattle.std.specs.Prelude.{◌≡◌, ◌≢◌, ◌+◌, ◌++◌, ◌<◌, ◌^◌, false, ℕ, List, codes, decimal, length, nat_eq, suc, take, OnErr, OnOk};
ghost use Rattle.streams.specs.Streams.{one_more, stream, AddsBytes, Stream};
ghost use Rattle.line_answers.specs.Telling.{is_refusal, told_of, TakesOf};

use itoa::Buffer;
use streams::{Failed, Sink, write_all};

/// Counts the lines, and reports those that are refused.
#[derive(Drop)]
pub struct Teller<'e, E> {
    pub errors: &'e mut E,
    /// The number of lines that were answered.
    pub count: u64,
    /// Whether a write to `errors` failed. Nothing is reported after that.
    pub failed: bool,
}

impl<'e, E: Sink> Teller<'e, E> {
    /// No line was answered yet.
    pub fn new(errors: &'e mut E) -> Teller<'e, E>
        ensures same_reference { result.errors.ghost_name ≡ errors.entry.ghost_name }
        ensures now { result.errors.now ≡ errors.old }
        ensures count { result.count ≡ 0 }
        ensures failed { result.failed ≡ false }
    {
        Teller {
            errors,
            count: 0,
            failed: false,
        }
    }

    /// Counts a line, and reports it if the answer refuses it.
    pub fn tell(&mut self, answer: &[u8])
        ensures same_reference { self.new.errors.ghost_name ≡ self.old.errors.ghost_name }
        ensures count { suc self.old.count < 2 ^ 64 → self.new.count ≡ suc self.old.count }
        ensures tells { (start : Stream) (text : List ℕ) → suc self.old.count < 2 ^ 64
            → TakesOf self.old.failed start (stream (E.taken self.old.errors.now) (E.failed self.old.errors.now)) text
            → TakesOf self.new.failed start (stream (E.taken self.new.errors.now) (E.failed self.new.errors.now)) (text ++ told_of (suc self.old.count) answer.now) }
    {
        self.count = after(self.count);
        if self.failed || !is_refusal(answer) {
            return;
        }
        match write_refused(self.count, answer, self.errors) {
            Ok(()) => {}
            Err(_) => self.failed = true,
        }
    }
}

/// The number after this one.
fn after(count: u64) -> u64
    ensures { suc count < 2 ^ 64 → result ≡ suc count }
{
    count.wrapping_add(1)
}

/// Whether the answer refuses its line.
fn is_refusal(answer: &[u8]) -> bool
    ensures { result ≡ is_refusal answer.now }
{
    answer.starts_with(b"{\"refused\":\"") || answer.starts_with(b"{\"policy\":\"")
}

/// Writes the report on a refused line.
fn write_refused<E: Sink>(number: u64, answer: &[u8], e: &mut E) -> Result<(), Failed>
    ensures whole { OnOk result (AddsBytes (E.taken e.old) (E.taken e.new) (codes "celbpf: line " ++ (decimal number ++ (codes ": " ++ answer.now)))) }
    ensures ok { OnOk result (E.failed e.new ≡ E.failed e.old) }
    ensures part { OnErr result ((n : ℕ) × (n < length (codes "celbpf: line " ++ (decimal number ++ (codes ": " ++ answer.now))))
        × AddsBytes (E.taken e.old) (E.taken e.new) (take n (codes "celbpf: line " ++ (decimal number ++ (codes ": " ++ answer.now))))) }
    ensures err { OnErr result (E.failed e.new ≡ one_more (E.failed e.old)) }
{
    write_all(e, b"celbpf: line ")?;
    write_all(e, Buffer::new().format(number).as_bytes())?;
    write_all(e, b": ")?;
    write_all(e, answer)
}
