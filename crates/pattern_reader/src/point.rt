//! Classes of code points.

ghost use Rattle.std.specs.Prelude.{◌≡◌, ◌≤◌, true, length, drop};
ghost use Rattle.pattern_reader.specs.Points as classes;

/// Whether the code point is in the name of a group.
pub fn is_word(c: char) -> bool
    ensures { result ≡ classes.is_word c }
{
    c.is_ascii_alphanumeric() || c == '_'
}

/// The code points from this position on.
pub fn tail(points: &[char], at: usize) -> &[char]
    requires { at ≤ length points.now }
    ensures { result.now ≡ drop at points.now }
{
    &points[at..]
}

/// The number of word characters at the front.
pub fn word_len(points: &[char]) -> usize
    ensures value { result ≡ classes.word_len points.now }
    ensures within { result ≤ length points.now }
{
    points.iter().take_while(|c| is_word(**c)).count()
}

/// The number of digits at the front.
pub fn digits_len(points: &[char]) -> usize
    ensures value { result ≡ classes.digits_len points.now }
    ensures within { result ≤ length points.now }
{
    points.iter().take_while(|c| c.is_ascii_digit()).count()
}

/// Whether this code point is at the front.
pub fn begins_with(points: &[char], c: char) -> bool
    ensures value { result ≡ classes.begins_with c points.now }
    ensures some { result ≡ true → 1 ≤ length points.now }
{
    match points {
        [first, ..] => *first == c,
        [] => false,
    }
}
