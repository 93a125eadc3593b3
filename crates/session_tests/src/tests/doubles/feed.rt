//! A source in memory.
ghost use Rattle.std.specs.Prelude.{◌<◌, ◌≤◌, None, length};

use debugger::{Failed, Source};

/// Delivers bytes in small pieces, and fails at one of its reads.
#[derive(Drop)]
pub struct Feed {
    left: &'static [u8],
    piece: usize,
    reads: u64,
    fails_at: u64,
    failed: u64,
    ghost some: { 0 < piece },
}

impl Feed {
    /// Delivers at most `piece` bytes per read. The reads are counted from 1, and the
    /// one with the number `fails_at` fails.
    pub fn new(bytes: &'static [u8], piece: usize, fails_at: u64) -> Feed
        requires { 0 < piece }
    {
        Feed {
            left: bytes,
            piece,
            reads: 0,
            fails_at,
            failed: 0,
        }
    }
}

impl Source for Feed {
    ghost left = { λ _. None };

    ghost failed = { λ f. f.failed };

    fn read(&mut self, buf: &mut [u8]) -> Result<usize, Failed> {
        self.reads = self.reads.wrapping_add(1);
        if self.reads == self.fails_at {
            self.failed = self.failed.wrapping_add(1);
            return Err(Failed);
        }
        let n = put_front(buf, self.left, self.piece);
        self.left = &self.left[n..];
        Ok(n)
    }

    fn failures(&self) -> u64 {
        self.failed
    }
}

/// Copies at most `piece` of the bytes to the front of the buffer, and returns their number.
fn put_front(buf: &mut [u8], bytes: &[u8], piece: usize) -> usize
    ensures room { result ≤ length buf.old }
    ensures within { result ≤ length bytes.now }
{
    let n = piece.min(buf.len()).min(bytes.len());
    buf[..n].copy_from_slice(&bytes[..n]);
    n
}
