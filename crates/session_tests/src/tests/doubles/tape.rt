//! A sink in memory.
ghost use Rattle.std.specs.Prelude.{◌≡◌, ◌≤◌, None};
ghost use Rattle.streams.specs.Streams.{one_more};

use debugger::{Failed, Sink};

/// Takes bytes in small pieces, and fails at one of its writes, or takes none there.
#[derive(Drop)]
pub struct Tape {
    bytes: Vec<u8>,
    piece: usize,
    writes: u64,
    fails_at: u64,
    stalls_at: u64,
    failed: u64,
}

impl Tape {
    /// Appends at most `piece` bytes per write to these bytes. The writes are counted from 1: the one with the number
    /// `fails_at` fails, and the one with the number `stalls_at` takes no byte.
    pub fn new(bytes: Vec<u8>, piece: usize, fails_at: u64, stalls_at: u64) -> Tape {
        Tape {
            bytes,
            piece,
            writes: 0,
            fails_at,
            stalls_at,
            failed: 0,
        }
    }

    /// The bytes that were taken.
    pub fn bytes(&self) -> &[u8] {
        self.bytes.as_slice()
    }

    fn fail(&mut self)
        ensures { self.new.failed ≡ one_more self.old.failed }
    {
        self.failed = self.failed.wrapping_add(1);
    }

    /// The number of these bytes that this write may take.
    fn room(&self, bytes: usize) -> usize
        ensures { result ≤ bytes }
    {
        if self.writes == self.stalls_at {
            return 0;
        }
        self.piece.min(bytes)
    }
}

impl Sink for Tape {
    ghost taken = { λ _. None };

    ghost failed = { λ t. t.failed };

    fn write(&mut self, bytes: &[u8]) -> Result<usize, Failed> {
        self.writes = self.writes.wrapping_add(1);
        if self.writes == self.fails_at {
            self.fail();
            return Err(Failed);
        }
        let n = self.room(bytes.len());
        if self.bytes.extend_from_slice(&bytes[..n]).is_err() {
            self.fail();
            return Err(Failed);
        }
        if n == 0 && !bytes.is_empty() {
            self.fail();
        }
        Ok(n)
    }

    fn failures(&self) -> u64 {
        self.failed
    }
}
