//! The places at which one text is in another.
ghost use Rattle.std.specs.Prelude.{◌≡◌, ◌≤◌, IfSome, length, option_map};
ghost use Rattle.std.specs.Str.{IsUtf8, chars};
ghost use Rattle.text_functions.specs.Places as specs;

/// The text before and after the first place of the part in it.
pub fn around<'t>(part: &str, text: &'t str) -> Option<(&'t str, &'t str)>
    ensures place { option_map (λ p. length (chars p.0.now)) result ≡ specs.first_place (chars part.now) (chars text.now) 0 }
    ensures parts { option_map (λ p. (chars p.0.now, chars p.1.now)) result ≡ specs.around (chars part.now) (chars text.now) }
    ensures utf8 { IfSome result (λ p. IsUtf8 p.0.now × IsUtf8 p.1.now) }
    ensures within { IfSome result (λ p. length p.0.now ≤ length text.now) }
{
    text.split_once(part)
}

/// The text before and after the last place of the part in it.
pub fn last_around<'t>(part: &str, text: &'t str) -> Option<(&'t str, &'t str)>
    ensures place { option_map (λ p. length (chars p.0.now)) result ≡ specs.last_place (chars part.now) (chars text.now) (length (chars text.now)) }
    ensures within { IfSome result (λ p. length p.0.now ≤ length text.now) }
{
    text.rsplit_once(part)
}
