//! Texts without a prefix or a suffix.
ghost use Rattle.std.specs.Prelude.{◌≡◌, ◌++◌, ℕ, List, MatchOption};

/// The text after the prefix.
pub(crate) fn after<'a>(word: &'a str, prefix: &str) -> Option<&'a str>
    ensures { MatchOption result ((rest : List ℕ) → word.now ≡ prefix.now ++ rest → ⊥) (λ x. word.now ≡ prefix.now ++ x.now) }
{
    word.strip_prefix(prefix)
}

/// The text before the suffix.
pub(crate) fn before<'a>(word: &'a str, suffix: &str) -> Option<&'a str>
    ensures { MatchOption result ((front : List ℕ) → word.now ≡ front ++ suffix.now → ⊥) (λ x. word.now ≡ x.now ++ suffix.now) }
{
    word.strip_suffix(suffix)
}
