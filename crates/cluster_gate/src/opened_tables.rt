//! Tables of evaluations.

ghost use Rattle.std.specs.Prelude.{◌≡◌, true, List, None, Some, option_map, IfSome};
ghost use Rattle.serde_json.specs.Data.{Data};
ghost use Rattle.serde_json.specs.View.{view};
ghost use Rattle.value_store.specs.Value as kind;
ghost use Rattle.cluster_gate.specs.Beside.{IsAtIf, IsPlaceOf};
ghost use Rattle.cluster_gate.specs.Opened.{AreReadHere, IsReadHere};
ghost use Rattle.cluster_gate.specs.Tables.{PlaceReturns, SharesTable};

use crate::namespace_place::NamespacePlace;
use crate::opened_review::OpenedReview;
use crate::read_document::{ReadDocument, name_of};
use crate::same::is_same;
use crate::texts::text_of;
use review_tables::{OpenReview, PooledDocument, ReviewError};
use serde_json::Value;
use std::alloc::Global;
use std::cell::Cell;
use value_store::ValueStore;
use value_table::Table;

/// The largest length in bytes of a document that is kept for later reviews.
const WANTED_LENGTH: usize = 65_536;

impl<'a> OpenedReview<'a, '_> {
    /// The table of the roots of the review with these params and this namespace, each null if there
    /// is none. The documents that are not read yet are read beside it. The namespace is at this
    /// place, if one is known.
    ///
    /// # Errors
    ///
    /// Those of `table_of_review`. `InvalidReview` and `InvalidDocument` imply nothing.
    pub(crate) fn table_by(
        &self,
        alloc: Global,
        params: Option<&'a Value>,
        namespace: Option<&'a Value>,
        place: &Option<NamespacePlace>,
    ) -> Result<Table, ReviewError>
        requires { IsAtIf self.now place.now (option_map (λ v. view v.now) namespace) }
        ensures { SharesTable self.now.review (option_map (λ v. view v.now) params.entry) (option_map (λ v. view v.now) namespace.entry) result }
    {
        match namespace {
            None => self.table(alloc, params, None),
            Some(document) => match place {
                None => self.table(alloc, params, Some(document)),
                Some(known) => self.table_beside(alloc, params, document, known),
            },
        }
    }

    /// `table_by`, with the namespace of this document at a place that is known.
    fn table_beside(
        &self,
        alloc: Global,
        params: Option<&'a Value>,
        document: &Value,
        known: &NamespacePlace,
    ) -> Result<Table, ReviewError>
        requires { IsPlaceOf self.now (view document.now) known.now }
        ensures { SharesTable self.now.review (option_map (λ v. view v.now) params.entry) (Some (view document.now)) result }
    {
        match params {
            None => self.first_table(alloc, document, known),
            Some(_) => self.table_at(alloc, params, known.pooled),
        }
    }

    /// `table_beside` without params: a copy of the table that is there, if one is.
    fn first_table(
        &self,
        alloc: Global,
        _document: &Value,
        known: &NamespacePlace,
    ) -> Result<Table, ReviewError>
        requires { IsPlaceOf self.now (view _document.now) known.now }
        ensures { SharesTable self.now.review None (Some (view _document.now)) result }
    {
        match &known.table {
            Some(table) => Ok(table.copy()?),
            None => self.table_at(alloc, None, known.pooled),
        }
    }

    /// Where the namespace with this document is beside the review, if it was read.
    pub(crate) fn namespace_place(&self, alloc: Global, document: &Value) -> Option<NamespacePlace>
        ensures { IsAtIf self.now result (Some (view document.now)) }
    {
        match self.place_of(document) {
            Some(pooled) => Some(self.with_first_table(alloc, document, pooled)),
            None => None,
        }
    }

    /// This place of a namespace, with the table without params, if that can be made.
    fn with_first_table(
        &self,
        alloc: Global,
        _document: &Value,
        pooled: PooledDocument,
    ) -> NamespacePlace
        requires { IsReadHere self.now.values (view _document.now) pooled }
        ensures { IsPlaceOf self.now (view _document.now) result }
    {
        match self.table_at(alloc, None, pooled) {
            Ok(table) => NamespacePlace {
                pooled,
                table: Some(table),
            },
            Err(_) => NamespacePlace {
                pooled,
                table: None,
            },
        }
    }

    /// Where the document is beside the review, if it was read.
    fn place_of(&self, document: &Value) -> Option<PooledDocument>
        ensures { IfSome result (λ p. IsReadHere self.now.values (view document.now) p) }
    {
        found(&self.documents, document)
    }

    /// The table with the namespace at this place.
    fn table_at(
        &self,
        alloc: Global,
        params: Option<&'a Value>,
        namespace: PooledDocument,
    ) -> Result<Table, ReviewError>
        requires { (d : Data) × IsReadHere self.now.values d namespace }
        ensures { (d : Data) → IsReadHere self.now.values d namespace → SharesTable self.now.review (option_map (λ v. view v.now) params.entry) (Some d) result }
    {
        let review = self.review.copy()?;
        let (review, params) = with_place(alloc, &self.documents, &self.wanted, review, params)?;
        review.table(Some(namespace), params)
    }

    /// The table with the namespace, which is found among the documents or else read.
    fn table(
        &self,
        alloc: Global,
        params: Option<&'a Value>,
        namespace: Option<&'a Value>,
    ) -> Result<Table, ReviewError>
        ensures { SharesTable self.now.review (option_map (λ v. view v.now) params.entry) (option_map (λ v. view v.now) namespace.entry) result }
    {
        let review = self.review.copy()?;
        let wanted = &self.wanted;
        let (review, namespace) = with_place(alloc, &self.documents, wanted, review, namespace)?;
        let (review, params) = with_place(alloc, &self.documents, wanted, review, params)?;
        review.table(namespace, params)
    }
}

/// Where the document is beside the review: among these documents, or else it is read now.
#[tactic(auto, using(crate::proofs::Places::place_none, crate::proofs::Places::place_found))]
fn with_place<'a, 'r>(
    alloc: Global,
    documents: &[ReadDocument<'_>],
    wanted: &Cell<Option<&'a Value>>,
    review: OpenReview<'r>,
    document: Option<&'a Value>,
) -> Result<(OpenReview<'r>, Option<PooledDocument>), ReviewError>
    requires { AreReadHere review.values documents.now }
    ensures { PlaceReturns review.entry (option_map (λ v. view v.now) document.entry) result }
{
    let Some(document) = document else {
        return Ok((review, None));
    };
    match found(documents, document) {
        Some(pooled) => Ok((review, Some(pooled))),
        None => read_beside(alloc, wanted, review, document),
    }
}

/// Where the document is, if it is read.
fn found(documents: &[ReadDocument<'_>], document: &Value) -> Option<PooledDocument>
    ensures { (vs : List kind.Value) → AreReadHere vs documents.now → IfSome result (λ p. IsReadHere vs (view document.now) p) }
{
    let name = name_of(document);
    for read in documents {
        if is_read(read, name, document) {
            return Some(read.pooled);
        }
    }
    None
}

/// Whether this document, which has this name, is the one that was read.
fn is_read(read: &ReadDocument<'_>, name: &str, document: &Value) -> bool
    ensures { result ≡ true → view read.now.document.now ≡ view document.now }
{
    read.name == name && is_same(read.document, document)
}

/// Reads the document beside the review, and marks it as wanted unless it is long.
fn read_beside<'a, 'r>(
    alloc: Global,
    wanted: &Cell<Option<&'a Value>>,
    review: OpenReview<'r>,
    document: &'a Value,
) -> Result<(OpenReview<'r>, Option<PooledDocument>), ReviewError>
    ensures { PlaceReturns review.entry (Some (view document.now)) result }
{
    let text = text_of(alloc, document)?;
    let (review, pooled) = review.with_document(text.as_slice())?;
    if text.len() <= WANTED_LENGTH {
        wanted.set(Some(document));
    }
    Ok((review, Some(pooled)))
}
