//! Measures of CEL expressions.
#![tactic(auto)]

mod laws;
mod node_count;
mod saturating;
mod stack_need;
mod variable_depth;

pub use laws::{rows_stand, source_measures};
pub use node_count::nodes;
pub use stack_need::need;
pub use variable_depth::depth;
