//! A version.
ghost use Rattle.std.specs.Prelude.{◌≡◌};
ghost use Rattle.versions.specs.Versions as specs;

/// A version by what decides its precedence.
#[derive(Clone, Copy, Debug)]
pub struct Version<'t> {
    /// The first number.
    pub major: u64,
    /// The second number.
    pub minor: u64,
    /// The third number.
    pub patch: u64,
    /// The identifiers of the pre-release with the dots between them; empty if there is none.
    pub pre: &'t [u8],
}

/// The int of `major()`, `minor()` or `patch()`. `None` if it does not fit 64 bits with a sign.
pub fn int_of(number: u64) -> Option<u64>
    ensures { result ≡ specs.int_of number }
{
    if number < 9223372036854775808 {
        Some(number)
    } else {
        None
    }
}
