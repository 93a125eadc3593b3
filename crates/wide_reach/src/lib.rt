//! Which values an expression of clusters can have, as far as these are in the documents.
#![tactic(auto)]

mod forms;
mod judging;
mod laws;
mod methods;
mod scope;

pub use judging::has_reach;
pub use laws::{rows_stand, scalars_are_contained, values_are_reached, variables_are_in_range};
pub use scope::{KnownVariable, Scope};
