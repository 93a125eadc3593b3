//! Results of allocations together.

ghost use Rattle.std.specs.Prelude.{◌≡◌, IfOk, Ok};

use std::alloc::AllocError;

/// Two results.
pub(crate) fn both<A: Drop, B: Drop>(
    first: Result<A, AllocError>,
    second: Result<B, AllocError>,
) -> Result<(A, B), AllocError>
    ensures { IfOk result (λ x. (first ≡ Ok x.0) × (second ≡ Ok x.1)) }
{
    Ok((first?, second?))
}

/// Three results.
pub(crate) fn three<A: Drop, B: Drop, C: Drop>(
    first: Result<A, AllocError>,
    second: Result<B, AllocError>,
    third: Result<C, AllocError>,
) -> Result<(A, B, C), AllocError>
    ensures { IfOk result (λ x. (first ≡ Ok x.0) × (second ≡ Ok x.1) × (third ≡ Ok x.2)) }
{
    let ((a, b), c) = both(both(first, second), third)?;
    Ok((a, b, c))
}
