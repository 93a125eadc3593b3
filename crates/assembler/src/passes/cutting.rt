//! The lines of a text.

ghost use Rattle.std.specs.Prelude.{◌≡◌, ◌<◌, ◌∷◌, [], MatchOption, IfSome, length};
ghost use Rattle.std.specs.Str.{IsUtf8};
ghost use Rattle.assembler.specs.Cutting.{lines_of};

/// The line at the front, and the text after its line feed.
pub(crate) fn next_line(text: &str) -> Option<(&str, &str)>
    ensures found { MatchOption result (lines_of text.now ≡ []) (λ x. lines_of text.now ≡ x.0.now ∷ lines_of x.1.now) }
    ensures shorter { MatchOption result (text.now ≡ []) (λ x. length x.1.now < length text.now) }
    ensures text { IfSome result (λ x. IsUtf8 x.1.now) }
{
    if text.is_empty() {
        return None;
    }
    let Some((line, rest)) = text.split_once('\n') else {
        return Some((text, ""));
    };
    Some((line, rest))
}
