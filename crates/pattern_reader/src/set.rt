//! The named sets of ASCII code points.

/// A set of ASCII code points with a name.
#[derive(Clone, Copy)]
pub enum Set {
    /// `[0-9A-Za-z]`
    Alnum,
    /// `[A-Za-z]`
    Alpha,
    /// Code points 0 to 127.
    Ascii,
    /// A tab or a space.
    Blank,
    /// A control character.
    Cntrl,
    /// `[0-9]`
    Digit,
    /// A letter, a digit or a punctuation character.
    Graph,
    /// `[a-z]`
    Lower,
    /// As `Graph`, or a space.
    Print,
    /// A punctuation character.
    Punct,
    /// White space, with the vertical tab.
    Space,
    /// `[A-Z]`
    Upper,
    /// `[0-9A-Za-z_]`
    Word,
    /// `[0-9A-Fa-f]`
    Xdigit,
    /// White space as in `\s`, without the vertical tab.
    PerlSpace,
}
