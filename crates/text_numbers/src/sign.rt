//! The sign at the front of a text.
ghost use Rattle.std.specs.Prelude.{◌≡◌};
ghost use Rattle.std.specs.Str.Parse.{starts_with_minus, without_leading_sign};

/// Whether the text begins with a minus.
pub fn has_minus(text: &[u8]) -> bool
    ensures { result ≡ starts_with_minus text.now }
{
    match text {
        [first, ..] => *first == b'-',
        [] => false,
    }
}

/// The text without the `-` or `+` that it begins with, if it begins with one.
pub fn without_sign(text: &[u8]) -> &[u8]
    ensures { result.now ≡ without_leading_sign text.now }
{
    match text {
        [b'-' | b'+', rest @ ..] => rest,
        _ => text,
    }
}
