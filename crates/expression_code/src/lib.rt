//! The basis of the code generator: what it means that code gives a value, within budgets of steps
//! and charge, on the machine and with its helpers.
//!
//! `instructions`, `helpers`, `references` and `simple_operand` are used to write code. They are
//! public for the crates above, which compile expressions and policies, and are not part of the
//! program's own interface.
//!
//! `laws` has the laws for the crates above, each on a function that does nothing. The public
//! lemmas of `proofs/` are for these crates too.
#![tactic(auto)]

pub mod helpers;
pub mod instructions;
pub mod laws;
pub mod limits;
pub mod references;
pub mod simple_operand;
