//! Match conditions and variables.

pub use verdicts::NamedExpression;
