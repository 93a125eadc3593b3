//! Numbers of code points.
ghost use Rattle.std.specs.Prelude.{◌≡◌, ◌≤◌, length};
ghost use Rattle.std.specs.Str.{chars};

use text_kernels::code_points;

/// The number of code points.
pub fn size(text: &str) -> u64
    ensures count { result ≡ length (chars text.now) }
    ensures within { result ≤ length text.now }
{
    code_points(text.as_bytes()) as u64
}
