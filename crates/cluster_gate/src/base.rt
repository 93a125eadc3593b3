//! Documents that are read before a review.

use crate::read_document::ReadDocument;
use review_tables::DocumentPool;
use std::marker::Model;

/// Documents of the state that are read before the reviews that are to share them.
#[derive(Drop)]
pub(crate) struct Base<'a> {
    pub(crate) pool: DocumentPool,
    pub(crate) documents: Vec<ReadDocument<'a>>,
    /// The length in bytes of what was read, with an amount for the base itself.
    pub(crate) length: usize,
}

impl<'a> Model for Base<'a> {
    ghost use Rattle.cluster_gate.specs.Opened.{AreReadHere};

    ghost Value = { Unit {0} };

    ghost view = { λ _. tt };

    ghost invariant = { λ b. AreReadHere b.pool b.documents.items };
}
