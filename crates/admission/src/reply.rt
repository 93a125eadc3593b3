//! Replies to reviews.

/// The reply to a review.
#[derive(Debug, Drop)]
pub struct Reply {
    /// The text of the response (AdmissionReview, `admission.k8s.io/v1`).
    pub response: Vec<u8>,
    /// Whether the response allows the request.
    pub allowed: bool,
}
