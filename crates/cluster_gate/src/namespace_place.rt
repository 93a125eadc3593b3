//! Where a request's namespace is beside its review.

use review_tables::PooledDocument;
use value_table::Table;

/// Where a request's namespace is beside its review.
#[derive(Drop)]
pub(crate) struct NamespacePlace {
    pub(crate) pooled: PooledDocument,
    /// The table of the review's roots with this namespace, without params. Evaluations have copies
    /// of it.
    pub(crate) table: Option<Table>,
}
