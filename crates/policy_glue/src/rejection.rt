//! Rejections of requests.

pub use verdicts::Rejection;
