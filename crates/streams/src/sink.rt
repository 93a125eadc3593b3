//! The output of a session.
ghost use Rattle.std.specs.Prelude.{◌≡◌, ◌<◌, ◌≤◌, ℕ, List, Option, length, take, IfOk, OnErr};
ghost use Rattle.streams.specs.Streams.{one_more, AddsBytes, KeepsBytes};

use crate::failed::Failed;

/// A writer that counts its failures. A write that takes no byte is one.
pub trait Sink {
    /// The bytes that were taken, if they are known.
    ghost taken: { Self → Option (List ℕ) };

    /// The number of failed calls, modulo 2^64.
    ghost failed: { Self → ℕ };

    /// Takes some bytes from the front, and returns their number.
    fn write(&mut self, bytes: &[u8]) -> Result<usize, Failed>
        ensures within { IfOk result (λ n. n ≤ length bytes.now) }
        ensures bytes { IfOk result (λ n. AddsBytes (taken self.old) (taken self.new) (take n bytes.now)) }
        ensures ok { IfOk result (λ n. 0 < n → failed self.new ≡ failed self.old) }
        ensures none { IfOk result (λ n. n ≡ 0 → 0 < length bytes.now → failed self.new ≡ one_more (failed self.old)) }
        ensures empty { IfOk result (λ n. length bytes.now ≡ 0 → failed self.new ≡ failed self.old) }
        ensures kept { OnErr result (KeepsBytes (taken self.old) (taken self.new)) }
        ensures err { OnErr result (failed self.new ≡ one_more (failed self.old)) };

    /// The number of failed calls, modulo 2^64.
    fn failures(&self) -> u64
        ensures { result ≡ failed self.now };
}
