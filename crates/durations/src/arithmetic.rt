//! Sums of durations.
ghost use Rattle.std.specs.Prelude.{◌≡◌, ◌+ℤ◌, ◌-ℤ◌, neg_ℤ};
ghost use Rattle.durations.specs.Arithmetic.{fitting};

/// `d + e`, in nanoseconds. `None` if the sum does not fit 64 bits.
pub fn sum(first: i64, second: i64) -> Option<i64>
    ensures { result ≡ fitting (first +ℤ second) }
{
    first.checked_add(second)
}

/// `d - e`, in nanoseconds. `None` if the difference does not fit 64 bits.
pub fn difference(first: i64, second: i64) -> Option<i64>
    ensures { result ≡ fitting (first -ℤ second) }
{
    first.checked_sub(second)
}

/// `-d`, in nanoseconds. `None` if it does not fit 64 bits.
pub fn negated(nanoseconds: i64) -> Option<i64>
    ensures { result ≡ fitting (neg_ℤ nanoseconds) }
{
    nanoseconds.checked_neg()
}
