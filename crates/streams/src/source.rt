//! The input of a session.
ghost use Rattle.std.specs.Prelude.{◌≡◌, ◌≤◌, ℕ, List, Option, Some, length, IfOk, OnErr, OnOk};
ghost use Rattle.streams.specs.Streams.{one_more, GivesBytes, KeepsBytes};

use crate::failed::Failed;

/// A reader that counts its failures.
pub trait Source {
    /// The bytes that are left to read, if they are known.
    ghost left: { Self → Option (List ℕ) };

    /// The number of failed calls, modulo 2^64.
    ghost failed: { Self → ℕ };

    /// Reads some bytes into the front of the buffer, and returns their number. It is 0
    /// only at the end, or if the buffer is empty.
    fn read(&mut self, buf: &mut [u8]) -> Result<usize, Failed>
        ensures within { IfOk result (λ n. n ≤ length buf.old) }
        ensures bytes { IfOk result (λ n. (input : List ℕ) → left self.old ≡ Some input → GivesBytes input (left self.new) (length buf.old) n buf.new) }
        ensures ok { OnOk result (failed self.new ≡ failed self.old) }
        ensures kept { OnErr result (KeepsBytes (left self.old) (left self.new)) }
        ensures err { OnErr result (failed self.new ≡ one_more (failed self.old)) };

    /// The number of failed calls, modulo 2^64.
    fn failures(&self) -> u64
        ensures { result ≡ failed self.now };
}
