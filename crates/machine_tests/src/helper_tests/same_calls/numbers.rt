//! Pseudo-random numbers from a seed.

/// A sequence of words, each computed from the one before by three shifts and exclusive ors (xorshift).
#[derive(Drop)]
pub(crate) struct Numbers(pub(crate) u64);

impl Numbers {
    /// The next number below a limit, or 0 if the limit is 0.
    pub(crate) fn below(&mut self, limit: u64) -> u64 {
        let first = self.0 ^ (self.0 << 13);
        let second = first ^ (first >> 7);
        let word = second ^ (second << 17);
        self.0 = word;
        if limit == 0 { 0 } else { (word >> 11) % limit }
    }
}
