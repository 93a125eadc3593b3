//! The files of a review under a policy.

/// The file names of a policy and of the documents of a review as given. They may be empty.
#[derive(Debug, Drop)]
pub struct ReviewNames {
    /// The policy.
    pub policy: String,
    /// The review.
    pub review: String,
    /// The object of its namespace, if it is given.
    pub namespace: Option<String>,
    /// The parameters, if they are given.
    pub params: Option<String>,
}
