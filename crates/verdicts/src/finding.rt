//! What a policy finds against requests.

use crate::reason::Reason;

/// What a policy finds against a request, by one of its validations or by its match conditions.
#[derive(Debug, Drop)]
pub struct Finding {
    /// The place of the validation, from 0 on, and 0 for the match conditions.
    pub index: u64,
    /// What it says.
    pub message: String,
    /// The reason of a denial that it causes.
    pub reason: Reason,
}
