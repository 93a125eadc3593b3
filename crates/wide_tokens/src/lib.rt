//! The tokens of an expression as API servers store it: `cel_tokens` with texts in triple quotes, bytes, unsigned
//! ints, doubles and names in back quotes, and comments that end at a line feed alone.
#![tactic(auto)]

mod bytes;
mod content;
mod cut;
mod escape;
mod kind;
mod laws;
mod lexed;
mod mark;
mod number;
mod opening;
pub mod rows;
mod token;

pub use cut::tokens;
pub use kind::Kind;
pub use laws::one_reading;
pub use token::Token;
