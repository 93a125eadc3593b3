//! Literal rows over the definitions of clusters, reviews and both programs, and a law of params. They are apart from the
//! crates whose definitions they pin, so that a new row does not prove the crates above these again.
#![tactic(auto)]

pub mod laws;
pub mod rows;
