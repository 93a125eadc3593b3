//! The files of a review's documents.

/// The file names of the documents of a review as given. Each is optional.
#[derive(Debug, Drop)]
pub struct DocumentNames {
    /// The review.
    pub review: Option<String>,
    /// The object of its namespace.
    pub namespace: Option<String>,
    /// The parameters.
    pub params: Option<String>,
}
