//! Which expressions of clusters have only lists and maps that are no wider than the documents.
#![tactic(auto)]

mod laws;

pub use laws::{narrow_means_within, rows_stand};
