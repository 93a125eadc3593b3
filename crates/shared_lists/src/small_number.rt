//! Places and counts in 32 bits.

ghost use Rattle.std.specs.Prelude.{◌≡◌, IfOk};

use std::alloc::AllocError;

/// A place or a count in 32 bits. Memory is out if it needs more.
pub fn small(n: usize) -> Result<u32, AllocError>
    ensures { IfOk result (λ m. m ≡ n) }
{
    if n > u32::MAX as usize {
        return Err(AllocError);
    }
    Ok(n as u32)
}
