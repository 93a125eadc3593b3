//! How lines are answered, whatever decides them.

use admission::{Language, Limits};

/// What the words ask of the policies and of the answers to lines.
#[derive(Clone, Copy, Debug)]
pub struct Settings {
    /// The language of the policies.
    pub language: Language,
    /// What each evaluation of a policy may take.
    pub limits: Limits,
    /// The most bytes of a line.
    pub max_line: u64,
    /// Whether refused lines are reported on standard error.
    pub verbose: bool,
    /// Whether the status reports answers that do not allow.
    pub status: bool,
}
