//! Saturating arithmetic.

ghost use Rattle.std.specs.Prelude.{◌≡◌, ◌+◌, max};
ghost use Rattle.cel_measures.specs.Saturated.{saturated};

/// The sum of two measures.
pub(crate) fn plus(a: u64, b: u64) -> u64
    ensures { result ≡ saturated (a + b) }
{
    a.saturating_add(b)
}

/// The greater of two measures.
pub(crate) fn greater(a: u64, b: u64) -> u64
    ensures { result ≡ max a b }
{
    a.max(b)
}
