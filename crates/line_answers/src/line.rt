//! The buffer of the current line.
ghost use Rattle.std.specs.Prelude.{◌≡◌, ◌++◌, [], ◌<◌, ◌≤◌, ℕ, List, length, nat_lt, suc, take, true, false, vec_capacity};
ghost use Rattle.line_answers.specs.Lines.{kept_room, KeepsLine};

use crate::limits::KEPT_ROOM;
use std::alloc::Global;

/// The part of a line that was read so far.
#[derive(Drop)]
pub struct Line {
    /// The largest length in bytes; a longer line is refused.
    pub most: u64,
    /// The bytes of the line, at most one more than `most`.
    pub bytes: Vec<u8>,
    /// Whether an allocation for them failed.
    pub lacks: bool,
}

impl Line {
    /// An empty line with this largest length. Nothing is allocated.
    pub fn new(alloc: Global, most: u64) -> Line
        ensures { KeepsLine most result [] }
    {
        Line {
            most,
            bytes: Vec::new(alloc),
            lacks: false,
        }
    }

    /// Appends a part of the line.
    pub fn extend(&mut self, part: &[u8])
        ensures { (most : ℕ) (line : List ℕ) → KeepsLine most self.old line → KeepsLine most self.new (line ++ part.now) }
    {
        if self.lacks || part.is_empty() || self.is_too_long() {
            return;
        }
        let room = self.most - self.bytes.len() as u64;
        match self.bytes.extend_from_slice(front(part, room)) {
            Ok(()) => {}
            Err(_) => self.lacks = true,
        }
    }

    /// Starts the next line. The memory of a long line is released.
    pub fn clear(&mut self)
        ensures kept { (most : ℕ) (line : List ℕ) → KeepsLine most self.old line → KeepsLine most self.new [] }
        ensures room { vec_capacity self.new.bytes ≤ kept_room }
    {
        self.bytes.clear();
        if self.bytes.capacity() > KEPT_ROOM {
            self.bytes.shrink_to_fit();
        }
        self.lacks = false;
    }

    /// Whether the line has no byte yet.
    pub fn is_empty(&self) -> bool
        ensures empty { (most : ℕ) (line : List ℕ) → KeepsLine most self.now line → result ≡ true → line ≡ [] }
        ensures some { (most : ℕ) (line : List ℕ) → KeepsLine most self.now line → result ≡ false → 0 < length line }
    {
        !self.lacks && self.bytes.is_empty()
    }

    /// Whether it is longer than the largest length.
    pub fn is_too_long(&self) -> bool
        ensures { result ≡ nat_lt self.now.most (length self.now.bytes.items) }
    {
        self.bytes.len() as u64 > self.most
    }
}

/// The first bytes, at most `most` + 1.
fn front(bytes: &[u8], most: u64) -> &[u8]
    ensures { result.now ≡ take (suc most) bytes.now }
{
    if bytes.len() as u64 <= most {
        bytes
    } else {
        &bytes[..most as usize + 1]
    }
}
