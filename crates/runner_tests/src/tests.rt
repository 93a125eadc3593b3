//! Definitions that the tests share.

use std::alloc::{AllocError, Global};

mod assembling;
mod cluster_answers;
mod clusters;
mod doubles;
mod drawn_images;
mod errors;
mod gatekeeper;
mod orders;
mod performing;
mod programs;
mod running;
mod verbose;

/// The line of standard error for a refusal; empty for an empty one.
pub fn refusal_line(alloc: Global, refusal: &str) -> Result<String, AllocError> {
    if refusal.is_empty() {
        return Ok(String::new(alloc));
    }
    format!(in alloc; "celbpf: {refusal}\n")
}
