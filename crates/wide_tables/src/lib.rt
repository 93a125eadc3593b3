//! Places the table of indices that translations of clusters' expressions use beside the params of a review.
#![tactic(auto)]

mod building;
mod rows;
mod wrap_error;
mod wrapping;

pub use rows::rows_stand;
pub use wrap_error::WrapError;
pub use wrapping::wrapped;
