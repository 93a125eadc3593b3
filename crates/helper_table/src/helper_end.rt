//! The result of a call of a helper.
use guest_memory::Fault;

/// The end of a call of a helper.
#[derive(Clone, Copy, Debug, PartialEq, Eq)]
pub enum HelperEnd {
    /// A word, for the register R0.
    Word(u64),
    /// A fault, which stops the program.
    Stop(Fault),
}
