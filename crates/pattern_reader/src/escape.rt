//! What a backslash and the code point after it mean.

ghost use Rattle.std.specs.Prelude.{◌≡◌};
ghost use Rattle.pattern_reader.specs.Escapes as escapes;

use crate::item::Item;
use crate::set::Set;

/// The code point that is escaped.
pub fn escape_of(c: char) -> Option<char>
    ensures { result ≡ escapes.escape_of c }
{
    match c {
        'n' => Some('\n'),
        'r' => Some('\r'),
        't' => Some('\t'),
        'f' => Some('\x0c'),
        'v' => Some('\x0b'),
        _ if c.is_ascii_punctuation() => Some(c),
        _ => None,
    }
}

/// The set with this letter.
pub fn set_of(c: char) -> Option<Set>
    ensures { result ≡ escapes.set_of c }
{
    match c {
        'd' => Some(Set::Digit),
        'w' => Some(Set::Word),
        's' => Some(Set::PerlSpace),
        _ => None,
    }
}

/// The set whose complement has this letter.
fn complement_of(c: char) -> Option<Set>
    ensures { result ≡ escapes.complement_of c }
{
    match c {
        'D' => Some(Set::Digit),
        'W' => Some(Set::Word),
        'S' => Some(Set::PerlSpace),
        _ => None,
    }
}

/// An escape that is no set.
fn plain_escape(c: char) -> Option<Item>
    ensures { result ≡ escapes.plain_escape c }
{
    match c {
        'A' => Some(Item::Start),
        'z' => Some(Item::End),
        'b' => Some(Item::Boundary),
        _ => Some(Item::Literal(escape_of(c)?)),
    }
}

/// The item that is escaped, outside brackets.
pub fn escaped(c: char) -> Option<Item>
    ensures { result ≡ escapes.escaped c }
{
    if let Some(set) = set_of(c) {
        return Some(Item::Named(set, false));
    }
    match complement_of(c) {
        Some(set) => Some(Item::Named(set, true)),
        None => plain_escape(c),
    }
}
