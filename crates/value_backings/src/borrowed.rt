//! Texts and keys, borrowed from their backings.

ghost use Rattle.std.specs.Prelude.{◌≡◌, ◌+◌, ◌≤◌, length};
ghost use Rattle.value_backings.specs.Ranges.{part_of, keys_at};
ghost use Rattle.value_backings.specs.Stored.{IsText};

use crate::part::Part;

/// The bytes of a text.
pub fn text(bytes: &[u8], part: Part) -> &[u8]
    requires { IsText bytes.now part }
    ensures { result.now ≡ part_of bytes.now part }
{
    &bytes[part.from as usize..part.to as usize]
}

/// The parts of adjacent keys.
pub fn keys(keys: &[Part], from: u64, count: u64) -> &[Part]
    requires { from + count ≤ length keys.now }
    ensures { result.now ≡ keys_at keys.now from count }
{
    &keys[from as usize..from as usize + count as usize]
}
