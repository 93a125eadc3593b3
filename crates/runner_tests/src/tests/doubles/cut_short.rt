//! A reader that fails.

use std::io::{Error, ErrorKind, Read};

/// Delivers its bytes, and fails after them.
#[derive(Drop)]
pub struct CutShort<'a> {
    pub left: &'a [u8],
}

impl Read for CutShort<'_> {
    fn read(&mut self, buf: &mut [u8]) -> std::io::Result<usize> {
        if self.left.is_empty() {
            return Err(Error::from(ErrorKind::BrokenPipe));
        }
        self.left.read(buf)
    }
}
