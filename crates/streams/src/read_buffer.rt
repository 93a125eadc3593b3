//! Bytes that were read from a source but are not consumed yet.
ghost use Rattle.std.specs.Prelude.{◌≡◌, ◌<◌, ◌≤◌, ℕ, List, [], length, take, drop, slice_range, Some, OnErr, OnOk};
ghost use Rattle.streams.specs.Buffers.{buffered};
ghost use Rattle.streams.specs.Streams.{one_more, KeepsBytes};

use crate::failed::Failed;
use crate::source::Source;
use std::marker::Model;

/// At most `N` bytes that were read but are not consumed yet. Allocates nothing.
#[derive(Drop)]
pub struct ReadBuffer<const N: usize> {
    bytes: [u8; N],
    start: usize,
    end: usize,
}

impl<const N: usize> Model for ReadBuffer<N> {
    ghost Value = { List ℕ };

    ghost view = { λ b. slice_range b.bytes b.start b.end };

    ghost invariant = { λ b. (b.start ≤ b.end) × (b.end ≤ N) };
}

impl<const N: usize> ReadBuffer<N> {
    /// An empty buffer.
    pub fn new() -> ReadBuffer<N>
        ensures { result ≡ [] }
    {
        ReadBuffer {
            bytes: [0; N],
            start: 0,
            end: 0,
        }
    }

    /// The bytes that are not consumed yet.
    pub fn ready(&self) -> &[u8]
        ensures { result.now ≡ self.now }
    {
        let all = &self.bytes[..];
        &all[self.start..self.end]
    }

    /// Reads once if the buffer is empty. Afterwards it is empty only at the end of the source, or if `N` is 0.
    pub fn fill<R: Source>(&mut self, r: &mut R) -> Result<(), Failed>
        ensures kept { KeepsBytes (buffered self.old (R.left r.old)) (buffered self.new (R.left r.new)) }
        ensures end { OnOk result (self.new ≡ [] → 0 < N → (input : List ℕ) → buffered self.old (R.left r.old) ≡ Some input → input ≡ []) }
        ensures room { OnOk result (length self.new ≤ N) }
        ensures ok { OnOk result (R.failed r.new ≡ R.failed r.old) }
        ensures none { OnErr result (self.new ≡ []) }
        ensures err { OnErr result (R.failed r.new ≡ one_more (R.failed r.old)) }
    {
        if self.start < self.end {
            return Ok(());
        }
        self.start = 0;
        self.end = 0;
        self.end = r.read(&mut self.bytes)?;
        Ok(())
    }

    /// Drops the first `n` bytes.
    pub fn consume(&mut self, n: usize)
        requires { n ≤ length self.old }
        ensures { self.new ≡ drop n self.old }
    {
        self.start += n;
    }
    /// Moves the first bytes to the front of `buf`, as many as fit, and returns their number.
    pub fn take(&mut self, buf: &mut [u8]) -> usize
        ensures room { result ≤ length buf.old }
        ensures within { result ≤ length self.old }
        ensures rest { self.new ≡ drop result self.old }
        ensures front { take result buf.new ≡ take result self.old }
        ensures none { result ≡ 0 → 0 < length buf.old → self.old ≡ [] }
    {
        let bytes = self.ready();
        let n = bytes.len().min(buf.len());
        buf[..n].copy_from_slice(&bytes[..n]);
        self.consume(n);
        n
    }
}
