//! Failures of readers and writers, counted.

use super::doubles::Tape;
use debugger::{Counting, Sink, Source};
use std::alloc::{AllocError, Global};
use std::io::{Error, ErrorKind, Read, Write};
use streams::write_all;

/// A broken device.
#[derive(Drop)]
struct Broken;

impl Read for Broken {
    fn read(&mut self, _buf: &mut [u8]) -> std::io::Result<usize> {
        Err(Error::from(ErrorKind::BrokenPipe))
    }
}

impl Write for Broken {
    fn write(&mut self, _buf: &[u8]) -> std::io::Result<usize> {
        Err(Error::from(ErrorKind::BrokenPipe))
    }

    fn flush(&mut self) -> std::io::Result<()> {
        Ok(())
    }
}

/// The number of this many reads that fail.
fn failed_reads<T: Read + Drop>(inner: T, calls: u64) -> u64 {
    let mut counted = Counting::new(inner);
    let mut buf = [0u8; 2];
    for _ in 0..calls {
        let _ = Source::read(&mut counted, &mut buf);
    }
    Source::failures(&counted)
}

#[test]
fn counts_failed_reads(rt: HostRuntime) {
    assert!(rt; failed_reads(b"abc".as_slice(), 3) == 0);
    assert!(rt; failed_reads(Broken, 3) == 3);
}

/// The number of this many writes of these bytes that fail.
fn failed_writes<T: Write + Drop>(inner: T, bytes: &[u8], calls: u64) -> u64 {
    let mut counted = Counting::new(inner);
    for _ in 0..calls {
        let _ = Sink::write(&mut counted, bytes);
    }
    Sink::failures(&counted)
}

/// The number of this many writes of two bytes to a buffer of three that fail.
fn failed_writes_to_room(calls: u64) -> u64 {
    let mut room = [0u8; 3];
    failed_writes(room.as_mut_slice(), b"ab", calls)
}

/// A write to a three-byte buffer takes no byte after it is full.
#[test]
fn counts_failed_writes(rt: HostRuntime) {
    assert!(rt; failed_writes_to_room(2) == 0);
    assert!(rt; failed_writes_to_room(3) == 1);
    assert!(rt; failed_writes_to_room(4) == 2);
    assert!(rt; failed_writes(Broken, b"", 2) == 2);
}

/// A reader whose second read fails.
#[derive(Drop)]
struct Flaky {
    left: &'static [u8],
    has_read: bool,
    has_failed: bool,
}

impl Read for Flaky {
    fn read(&mut self, buf: &mut [u8]) -> std::io::Result<usize> {
        if self.has_read && !self.has_failed {
            self.has_failed = true;
            return Err(Error::from(ErrorKind::BrokenPipe));
        }
        self.has_read = true;
        self.left.read(buf)
    }
}

/// The byte that is read after this many reads of one byte of `ab`, of which the second fails.
fn byte_after(reads: u64) -> Option<Option<u8>> {
    let flaky = Flaky {
        left: b"ab",
        has_read: false,
        has_failed: false,
    };
    let mut counted = Counting::new(flaky);
    let mut buf = [0u8; 1];
    for _ in 0..reads {
        let _ = Source::read(&mut counted, &mut buf);
    }
    match Source::read(&mut counted, &mut buf) {
        Ok(0) => Some(None),
        Ok(_) => Some(Some(buf[0])),
        Err(_) => None,
    }
}

#[test]
fn reads_byte_by_byte(rt: HostRuntime) {
    assert!(rt; byte_after(0) == Some(Some(b'a')));
    assert!(rt; byte_after(1) == None);
    assert!(rt; byte_after(2) == Some(Some(b'b')));
    assert!(rt; byte_after(3) == Some(None));
}

/// Whether exactly these bytes of `abcde` are written, two bytes at a time, if the write with
/// one of these numbers fails, or takes no byte.
fn writes(alloc: Global, fails_at: u64, stalls_at: u64, said: &[u8]) -> Result<bool, AllocError> {
    let mut tape = Tape::new(Vec::with_capacity(alloc, 5)?, 2, fails_at, stalls_at);
    let _ = write_all(&mut tape, b"abcde");
    Ok(tape.bytes() == said)
}

#[test]
fn writes_in_pieces(rt: HostRuntime) {
    assert!(rt; writes(rt.alloc(), 0, 0, b"abcde").unwrap_or(false));
    assert!(rt; writes(rt.alloc(), 2, 0, b"ab").unwrap_or(false));
    assert!(rt; writes(rt.alloc(), 0, 3, b"abcd").unwrap_or(false));
}
