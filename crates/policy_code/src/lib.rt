//! The programs of admission policies: what a policy decides, and the code that decides it.
#![tactic(auto)]

mod checked;
mod checked_validation;
pub mod laws;
mod program;
mod program_error;

pub use checked::Checked;
pub use checked_validation::CheckedValidation;
pub use program::program_of;
pub use program_error::ProgramError;
pub use verdicts::{FailurePolicy, Outcome, verdict_words};
