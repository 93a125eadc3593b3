//! What ends a list.

ghost use Rattle.std.specs.Prelude.{◌≡◌};
ghost use Rattle.wide_reader.specs.Look as specs;

use cel_tokens::Mark;

/// The list that a closing bracket ends.
#[derive(Clone, Copy)]
pub enum Closing {
    /// Arguments, ended by `)`.
    Call,
    /// The items of a list literal, ended by `]`, possibly after a comma.
    List,
    /// The entries of a map literal, ended by `}`, possibly after a comma.
    Map,
}

impl Closing {
    /// The closing bracket.
    pub fn mark(self) -> Mark
        ensures { result ≡ specs.closing_mark self }
    {
        match self {
            Closing::Call => Mark::CloseParen,
            Closing::List => Mark::CloseBracket,
            Closing::Map => Mark::CloseBrace,
        }
    }

    /// Whether a comma may be before the closing bracket.
    pub fn takes_comma(self) -> bool
        ensures { result ≡ specs.takes_comma self }
    {
        match self {
            Closing::Call => false,
            Closing::List | Closing::Map => true,
        }
    }
}
