//! Kinds of tokens.

/// What a token is (cel-spec, lexis).
#[derive(Debug, Drop, PartialEq, Eq)]
pub enum Kind {
    /// An identifier or a reserved word: a letter or `_`, then letters, digits and `_`.
    Name,
    /// An int in decimal or hex, with its sign.
    Int(i64),
    /// A text literal with its escapes resolved.
    Text(String),
    /// An operator or a bracket; its bytes show which.
    Mark,
}
