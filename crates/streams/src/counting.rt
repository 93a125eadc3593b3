//! Readers and writers that count their failures.
ghost use Rattle.std.specs.Prelude.{◌≡◌, ◌+◌, ◌%◌, ◌^◌, ◌<◌, ◌≤◌, None, length, IfOk, OnErr, OnOk};
ghost use Rattle.streams.specs.Streams.{one_more};

use crate::failed::Failed;
use crate::sink::Sink;
use crate::source::Source;
use std::io::{Read, Write};

/// A reader or a writer whose failures are counted. Its bytes are known if those of the inner reader or writer are.
#[derive(Drop)]
pub struct Counting<T> {
    inner: T,
    failed: u64,
}

impl<T> Counting<T> {
    /// Wraps a reader or a writer, with no failure counted. Allocates nothing.
    pub fn new(inner: T) -> Counting<T>
        ensures inner { result.inner ≡ inner }
        ensures failed { result.failed ≡ 0 }
    {
        Counting { inner, failed: 0 }
    }

    fn count(&mut self) -> Failed
        ensures inner { self.new.inner ≡ self.old.inner }
        ensures failed { self.new.failed ≡ one_more self.old.failed }
    {
        self.failed = self.failed.wrapping_add(1);
        Failed
    }
}

impl<T: Read> Source for Counting<T> {
    ghost left = { λ c. T.remaining c.inner };

    ghost failed = { λ c. c.failed };

    fn read(&mut self, buf: &mut [u8]) -> Result<usize, Failed> {
        let Ok(n) = self.inner.read(buf) else {
            return Err(self.count());
        };
        Ok(n)
    }

    fn failures(&self) -> u64 {
        self.failed
    }
}

impl<T: Write> Sink for Counting<T> {
    ghost taken = { λ c. T.contents c.inner };

    ghost failed = { λ c. c.failed };

    fn write(&mut self, bytes: &[u8]) -> Result<usize, Failed> {
        match self.inner.write(bytes) {
            Ok(n) => {
                if n == 0 && !bytes.is_empty() {
                    let _ = self.count();
                }
                Ok(n)
            }
            Err(_) => Err(self.count()),
        }
    }

    fn failures(&self) -> u64 {
        self.failed
    }
}
