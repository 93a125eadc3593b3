//! The tokens of a CEL expression: the text is split from the left, the longest token at each position.
#![tactic(auto)]

mod bytes;
mod cut;
mod escape;
mod int;
mod kind;
mod laws;
mod lexed;
mod limits;
mod literal;
mod mark;
mod read_error;
pub mod rows;
mod token;

pub use bytes::is_name;
pub use cut::tokens;
pub use kind::Kind;
pub use laws::{
    escapes, gaps, ints_that_fit, longest, one_reading, pieces_of_a_text, signed_ints,
    tokens_as_written,
};
pub use limits::{TEXT_LIMIT, TOKEN_LIMIT};
pub use mark::{Mark, mark_of};
pub use read_error::ReadError;
pub use token::Token;
