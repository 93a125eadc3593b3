//! The contents of a policy's document.

pub use verdicts::Parts;
