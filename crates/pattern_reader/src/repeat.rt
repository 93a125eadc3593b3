//! Repetitions.

/// A repetition of what is before it.
#[derive(Clone, Copy)]
pub struct Repeat {
    /// The smallest number of times, at most 1,000.
    pub min: u32,
    /// The greatest number of times, at most 1,000. `None`: any number.
    pub max: Option<u32>,
    /// Fewer times are preferred.
    pub lazy: bool,
}
