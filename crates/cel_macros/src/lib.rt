//! CEL's macros as folds, and the meaning of expressions with and without macros.
#![tactic(auto)]

mod build;
mod callee;
mod core_tree;
mod expanding;
mod faults;
mod folding;
mod function;
mod laws;
mod macro_error;
mod macros;
mod names;
mod shape;
mod text_test;
mod together;

pub use callee::Callee;
pub use core_tree::Core;
pub use expanding::expand;
pub use function::Function;
pub use laws::{expands, rows_stand, settled_stays, values_stay};
pub use macro_error::MacroError;
pub use macros::Macro;
pub use text_test::TextTest;
