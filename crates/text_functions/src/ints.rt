//! Ints in texts.
ghost use Rattle.std.specs.Prelude.{◌≡◌};
ghost use Rattle.text_functions.specs.Ints.{int_of};

/// The int that the text spells: a sign or none and decimal digits (`int` of cel-spec; strconv.ParseInt in base 10).
/// `None` for any other text, and for a number outside 64 bits.
pub fn int(text: &str) -> Option<i64>
    ensures { result ≡ int_of text.now }
{
    text.parse().ok()
}
