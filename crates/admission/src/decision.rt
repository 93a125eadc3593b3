//! Decisions on reviews.

use policy_glue::Rejection;

/// The decision of a policy on a review.
#[derive(Drop)]
pub struct Decision {
    /// The rejection; `None` if the policy allows the request.
    pub rejection: Option<Rejection>,
    /// The uid of the request.
    pub uid: String,
}
