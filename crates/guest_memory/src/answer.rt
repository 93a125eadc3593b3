//! The result of a store.
ghost use Rattle.std.specs.Prelude.{◌≡◌};
ghost use Rattle.guest_memory.specs.Answers.{answer_of};

use crate::fault::Fault;
use crate::write_error::WriteError;

/// The result of a store, in one byte, so that returning it needs no memory.
#[derive(Clone, Copy)]
pub enum Answer {
    /// The store was made.
    Made,
    /// Its bytes would not all be in one region.
    Outside,
    /// Its bytes are all in the constants.
    Constant,
    /// An allocation failed.
    NoMemory,
}

impl Answer {
    /// The result with its error.
    #[inline(always)]
    pub fn result(self) -> Result<(), WriteError>
        ensures { result ≡ answer_of self }
    {
        match self {
            Answer::Made => Ok(()),
            Answer::Outside => Err(WriteError::Fault(Fault::F3)),
            Answer::Constant => Err(WriteError::Fault(Fault::F4)),
            Answer::NoMemory => Err(WriteError::Memory),
        }
    }
}
