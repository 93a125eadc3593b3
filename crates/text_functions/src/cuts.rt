//! Texts cut between code points.
ghost use Rattle.std.specs.Prelude.{◌≡◌, ◌<◌, ◌+◌, ◌++◌, ℕ, List, ◌⊎◌, MatchOption, length};
ghost use Rattle.text_functions.specs.Cuts.{IsLetterAndRest, IsCut};

/// The first code point as a text, and the rest, if one of `left` is left.
pub fn next_letter(text: &str, left: u64) -> Option<(&str, &str)>
    ensures { MatchOption result ((left ≡ 0) ⊎ (length text.now ≡ 0)) (λ p. (0 < left) × IsLetterAndRest text.now p.0.now p.1.now) }
{
    if left == 0 {
        return None;
    }
    let mut codes = text.chars();
    match codes.next() {
        None => None,
        Some(_) => Some(parted(text, codes.as_str())),
    }
}

/// The text of the first `count` code points, or of all if there are fewer, and the rest.
pub fn cut(text: &str, count: u64) -> (&str, &str)
    ensures cut { IsCut count text.now result.0.now result.1.now }
    ensures lengths { length result.0.now + length result.1.now ≡ length text.now }
{
    let mut rest = text;
    let mut left = count;
    'letters: while let Some((_, after)) = next_letter(rest, left) {
        rest = after;
        left -= 1;
    }
    parted(text, rest)
}

/// The text before its end, which is `rest`, and that end.
fn parted<'t>(text: &'t str, rest: &str) -> (&'t str, &'t str)
    requires { (front : List ℕ) × (text.now ≡ front ++ rest.now) }
    ensures whole { text.now ≡ result.0.now ++ result.1.now }
    ensures back { result.1.now ≡ rest.now }
{
    let at = text.len() - rest.len();
    text.split_at(at)
}
