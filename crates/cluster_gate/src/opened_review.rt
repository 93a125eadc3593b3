//! Reviews that are read once for all evaluations.

use crate::read_document::ReadDocument;
use review_tables::OpenReview;
use serde_json::Value;
use std::cell::Cell;
use std::marker::Model;

/// The review of a line, and documents of the state that are read beside it. Each evaluation has a
/// table that shares their values.
#[derive(Drop)]
pub(crate) struct OpenedReview<'a, 'r> {
    pub(crate) review: OpenReview<'r>,
    pub(crate) documents: Vec<ReadDocument<'a>>,
    /// A document that was not among them when a table needed it.
    pub(crate) wanted: Cell<Option<&'a Value>>,
}

impl<'a, 'r> Model for OpenedReview<'a, 'r> {
    ghost use Rattle.std.specs.Coded.{codes};
    ghost use Rattle.review_tables.specs.DocumentPool.{OpenValues, coded_value};
    ghost use Rattle.cluster_gate.specs.Opened.{AreReadHere};

    ghost Value = { OpenValues };

    ghost coded = { Prim.hlevel (codes, coded_value) };

    ghost view = { λ o. o.review };

    ghost invariant = { λ o. AreReadHere o.review.values o.documents.items };
}
