//! The flags at the start of a pattern.

ghost use Rattle.std.specs.Prelude.{◌≡◌, ◌≤◌, ◌+◌, length, IfSome};
ghost use Rattle.pattern_reader.specs.Flags as written;

use crate::point::begins_with;

/// The flags of a pattern.
#[derive(Clone, Copy)]
pub struct Flags {
    /// `i`: letters match those of either case.
    pub fold: bool,
    /// `s`: `.` matches a line feed too.
    pub dot_all: bool,
}

/// The flags after `(?`, with the length of the group.
fn letters_at(points: &[char]) -> Option<(Flags, usize)>
    ensures value { result ≡ written.letters_at points.now }
    ensures within { IfSome result (λ x. x.1 ≤ length points.now + 2) }
{
    match points {
        [first, second, rest @ ..] => letters(*first, *second, rest),
        _ => None,
    }
}

/// The flags that these letters are.
fn letters(first: char, second: char, points: &[char]) -> Option<(Flags, usize)>
    ensures value { result ≡ written.letters first second points.now }
    ensures within { IfSome result (λ x. x.1 ≤ length points.now + 4) }
{
    if second == ')' {
        return alone(first);
    }
    let both = (first == 'i' && second == 's') || (first == 's' && second == 'i');
    if both && begins_with(points, ')') {
        Some((
            Flags {
                fold: true,
                dot_all: true,
            },
            5,
        ))
    } else {
        None
    }
}

/// The flag with this letter.
fn alone(letter: char) -> Option<(Flags, usize)>
    ensures value { result ≡ written.alone letter }
    ensures within { IfSome result (λ x. x.1 ≡ 4) }
{
    match letter {
        'i' => Some((
            Flags {
                fold: true,
                dot_all: false,
            },
            4,
        )),
        's' => Some((
            Flags {
                fold: false,
                dot_all: true,
            },
            4,
        )),
        _ => None,
    }
}

/// The group of flags at the front, with its length.
fn group_at(points: &[char]) -> Option<(Flags, usize)>
    ensures value { result ≡ written.group_at points.now }
    ensures within { IfSome result (λ x. x.1 ≤ length points.now) }
{
    match points {
        ['(', '?', rest @ ..] => letters_at(rest),
        _ => None,
    }
}

/// The flags at the start of a pattern, with their length.
pub fn flags_at(points: &[char]) -> (Flags, usize)
    ensures value { result ≡ written.flags_at points.now }
    ensures within { result.1 ≤ length points.now }
{
    match group_at(points) {
        Some(flags) => flags,
        None => (
            Flags {
                fold: false,
                dot_all: false,
            },
            0,
        ),
    }
}
