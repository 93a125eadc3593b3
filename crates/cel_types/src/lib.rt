//! The type checker of CEL expressions.
#![tactic(auto)]

mod cel_type;
mod checking;
mod iterations;
mod laws;
mod names;
mod rows;
mod scope;
mod type_error;
mod variable;

pub use cel_type::CelType;
pub use checking::check;
pub use laws::{is_sound, rows_stand, typed_is_expanded, types_are_rows, types_stay};
pub use scope::Scope;
pub use type_error::TypeError;
pub use variable::Variable;
