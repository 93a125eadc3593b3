//! What a pattern is for.

ghost use Rattle.std.specs.Prelude.{◌≡◌};
ghost use Rattle.pattern_reader.specs.Reading.{is_find};

/// What a pattern is for.
#[derive(Clone, Copy, Debug)]
pub enum Purpose {
    /// Whether a text matches.
    Match,
    /// Which parts of a text match. Repetitions of what can match the empty text are refused.
    Find,
}

/// Whether the pattern is to find parts of texts.
pub fn finds(purpose: Purpose) -> bool
    ensures { result ≡ is_find purpose }
{
    match purpose {
        Purpose::Match => false,
        Purpose::Find => true,
    }
}
