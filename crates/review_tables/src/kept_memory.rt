//! The memory for reading that is kept from one document to the next.

use crate::read_memory::ReadMemory;
use std::alloc::{AllocError, Global};
use std::cell::Cell;
use std::rc::Rc;

/// The largest length in bytes of a text whose memory is kept.
const KEPT_LENGTH: usize = 1_048_576;

/// The memory for reading, if it is kept. No result depends on what it holds.
#[derive(Drop)]
pub(crate) struct KeptMemory {
    kept: Cell<Option<Box<ReadMemory>>>,
}

impl KeptMemory {
    /// Nothing is kept, and nothing is allocated.
    pub(crate) fn new() -> KeptMemory {
        KeptMemory {
            kept: Cell::new(None),
        }
    }

    /// The same, for pools and reviews that share it.
    pub(crate) fn shared(alloc: Global) -> Result<Rc<KeptMemory>, AllocError> {
        Rc::new(alloc, KeptMemory::new()).ok().ok_or(AllocError)
    }

    /// The memory that is kept, or else new memory.
    pub(crate) fn take(&self, alloc: Global) -> Result<Box<ReadMemory>, AllocError> {
        match self.kept.replace(None) {
            Some(memory) => Ok(memory),
            None => Ok(Box::new(alloc, ReadMemory::new(alloc))?),
        }
    }

    /// Keeps the memory with which a text of this length was read, unless the text was long.
    pub(crate) fn keep(&self, memory: Box<ReadMemory>, length: usize) {
        if length <= KEPT_LENGTH {
            self.kept.set(Some(memory));
        }
    }
}
