//! The fields of a review that matter.

use crate::placed_request::PlacedRequest;

/// The fields of a review that were read so far: whether its version and its kind are those of an
/// AdmissionReview, and its request.
#[derive(Clone, Copy, Debug, Drop)]
pub(crate) struct ReviewFields {
    pub(crate) version: bool,
    pub(crate) kind: bool,
    pub(crate) request: Option<PlacedRequest>,
}
