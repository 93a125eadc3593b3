//! Literal rows of the language's definitions, from the tokens to the types, the measures and the policy.
//!
//! They are apart from the crates whose definitions they pin, so that one row more has none of these proved again.
//! Each value is cel-spec's, the Kubernetes API's or worked by hand, never what our programs answered.
#![tactic(auto)]

pub mod rows;
