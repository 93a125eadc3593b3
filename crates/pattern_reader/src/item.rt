//! The items that a pattern is written of.

ghost use Rattle.std.specs.Prelude.{◌≡◌};
ghost use Rattle.pattern_reader.specs.Measures as measures;

use crate::repeat::Repeat;
use crate::set::Set;

/// An item of a pattern.
#[derive(Clone, Copy)]
pub enum Item {
    /// A code point that matches itself.
    Literal(char),
    /// `.`
    Any,
    /// A set outside brackets, as `\d`. `true`: its complement, as `\D`.
    Named(Set, bool),
    /// `^` or `\A`: the start of the text.
    Start,
    /// `$` or `\z`: the end of the text.
    End,
    /// `\b`: an ASCII word boundary.
    Boundary,
    /// The opening of a group, with its name if it has one.
    Open,
    /// `|`
    Bar,
    /// `)`
    Close,
    /// A repetition of the atom before it.
    Repeat(Repeat),
    /// `[`, or `[^` if this is `true`.
    OpenBracket(bool),
    /// The code points from the first to the last, in brackets.
    Range(char, char),
    /// A set in brackets.
    Member(Set),
    /// `]`
    CloseBracket,
}

/// Whether the item opens a group.
pub fn is_open(item: Item) -> bool
    ensures { result ≡ measures.is_open item }
{
    matches!(item, Item::Open)
}

/// Whether the item closes a group.
pub fn is_close(item: Item) -> bool
    ensures { result ≡ measures.is_close item }
{
    matches!(item, Item::Close)
}
