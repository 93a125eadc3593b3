//! What a policy finds against requests.

pub use verdicts::Finding;
