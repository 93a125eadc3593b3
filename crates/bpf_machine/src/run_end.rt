//! The end of a run with a limit of reads.
use crate::status::Status;

/// The end of a run with a limit of reads.
#[derive(Clone, Copy, Debug, PartialEq, Eq)]
pub struct RunEnd {
    /// The number of steps that were taken.
    pub steps: u64,
    /// What these steps read, or the greatest word, if that is less.
    pub reads: u64,
    /// The status after them.
    pub status: Status,
    /// Whether the limit ended the run: a step was left, and the machine had not stopped.
    pub is_held: bool,
}
