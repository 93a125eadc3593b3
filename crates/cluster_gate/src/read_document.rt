//! Documents of the state that are read beside a review.

use review_tables::PooledDocument;
use serde_json::Value;

/// A document of the state, and where its value is beside a review.
#[derive(Clone, Copy, Debug, Drop)]
pub(crate) struct ReadDocument<'a> {
    /// Its name, to find it among others.
    pub(crate) name: &'a str,
    pub(crate) document: &'a Value,
    pub(crate) pooled: PooledDocument,
}

/// The name in the document's metadata, or the empty name if there is none.
pub(crate) fn name_of<'a>(document: &'a Value) -> &'a str {
    match document.get("metadata") {
        Some(metadata) => name_in(metadata),
        None => "",
    }
}

fn name_in<'a>(metadata: &'a Value) -> &'a str {
    match metadata.get("name") {
        Some(Value::String(name)) => name.as_str(),
        _ => "",
    }
}
