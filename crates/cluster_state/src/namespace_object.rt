//! The namespace of a request.

use crate::document::Document;

/// The root `namespaceObject` of a request.
#[derive(Clone, Copy, Debug, Drop)]
pub enum NamespaceObject<'a> {
    Null,
    Object(Document<'a>),
    /// The namespace of the request does not exist.
    NotFound,
}
