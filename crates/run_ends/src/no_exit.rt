//! Why a run within limits ended without an exit.

/// Why a run within limits ended without an exit.
#[derive(Clone, Copy, Debug, PartialEq, Eq)]
pub enum NoExit {
    /// A fault stopped the machine.
    Stopped,
    /// The machine still runs, and the limit of reads held it: a step was left.
    OutOfReads,
    /// The machine still runs after all its steps.
    OutOfSteps,
}
