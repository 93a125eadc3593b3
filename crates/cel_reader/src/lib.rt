//! The expressions of CEL: parses a text into a tree.
#![tactic(auto)]

mod build;
mod closing;
mod expr;
mod laws;
mod level;
mod limits;
mod literal;
mod look;
mod name;
mod operator;
mod phrase;
mod place;
mod reader;
mod refusal;
mod role;
mod source;
mod word;

pub use cel_tokens::ReadError;
pub use expr::Expr;
pub use laws::{
    literal_rows_stand, memory_is_for_short_texts, one_answer, one_tree, parts_in_lists,
    refusal_rows_stand,
};
pub use literal::Literal;
pub use name::is_identifier;
pub use operator::{BinaryOperator, UnaryOperator};
pub use source::read;
