//! Signs, decimal digits and numbers with a point at the front of a text.
#![tactic(auto)]

mod digits;
mod number;
mod sign;

pub use digits::{digits_len, digits_number, joined_number};
pub use number::{Number, number_at};
pub use sign::{has_minus, without_sign};
