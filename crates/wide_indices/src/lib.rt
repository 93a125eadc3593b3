//! Which expressions of clusters need no more indices than the documents are wide.
#![tactic(auto)]

mod calls;
mod forms;
mod known_variables;
mod laws;
mod names;
mod ranges;
mod widths;

pub use known_variables::{KnownVariable, KnownVariables};
pub use laws::{
    narrow_conditions_are_tabled, narrow_policies_are_tabled, narrow_ranges_are_indexed, rows_stand,
};
