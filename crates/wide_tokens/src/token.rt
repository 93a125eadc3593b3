//! Tokens.

use crate::kind::Kind;

/// A token of a text. Its bytes are those from `place` to before `end`.
#[derive(Debug, Drop, PartialEq, Eq)]
pub struct Token {
    pub place: usize,
    pub end: usize,
    pub kind: Kind,
}
