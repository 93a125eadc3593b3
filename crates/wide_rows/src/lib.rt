//! Literal rows of the definitions of the wide language, from the tokens to the policy and its tables.
//!
//! They are apart from the crates whose definitions they pin, so that one row more has none of these proved again.
//! Each value is cel-spec's, cel-go's, the Kubernetes API's or worked by hand, never what our programs answered.
#![tactic(auto)]

pub mod rows;
