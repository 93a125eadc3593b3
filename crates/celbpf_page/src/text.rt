//! A text in memory, as the output of a session.
ghost use Rattle.std.specs.Prelude.{◌≡◌, [], Some};

use std::alloc::Global;
use streams::{Failed, Sink};

/// A text in memory. A write fails if it takes more memory than there is.
#[derive(Drop)]
pub struct Text {
    pub bytes: Vec<u8>,
    failures: u64,
}

impl Text {
    /// An empty text.
    pub fn new(alloc: Global) -> Text
        ensures { result.bytes.items ≡ [] }
    {
        Text {
            bytes: Vec::new(alloc),
            failures: 0,
        }
    }
}

impl Sink for Text {
    ghost taken = { λ t. Some t.bytes.items };

    ghost failed = { λ t. t.failures };

    fn write(&mut self, bytes: &[u8]) -> Result<usize, Failed> {
        match self.bytes.extend_from_slice(bytes) {
            Ok(()) => Ok(bytes.len()),
            Err(_) => {
                self.failures = self.failures.wrapping_add(1);
                Err(Failed)
            }
        }
    }

    fn failures(&self) -> u64 {
        self.failures
    }
}
