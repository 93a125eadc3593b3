//! Kinds of tokens.

/// What a token is.
#[derive(Debug, Drop, PartialEq, Eq)]
pub enum Kind {
    /// An identifier or a reserved word: a letter or `_`, then letters, digits and `_`.
    Name,
    /// A name in back quotes, which may only name a field.
    Quoted,
    /// An int in decimal or hex, with its sign.
    Int(i64),
    /// An unsigned int, with `u` or `U` after its digits.
    Uint(u64),
    /// A text literal with its escapes resolved.
    Text(String),
    /// A text literal with `b` or `B` before it. Its value is not kept.
    Bytes,
    /// A number with a fraction or an exponent. Its value is not kept.
    Double,
    /// An operator or a bracket; its bytes show which.
    Mark,
}
