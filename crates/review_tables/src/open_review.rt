//! Reviews that are read once, for the tables of any number of evaluations.

ghost use Rattle.std.specs.Prelude.{◌≡◌, option_and_then, IfOk, Some};
ghost use Rattle.serde_json.specs.Data as json;
ghost use Rattle.value_store.specs.Documents.{document_of};
ghost use Rattle.value_store.specs.Reviews.{parts_in};
ghost use Rattle.review_tables.specs.DocumentPool.{GrowReturns, IsGiven, IsSoundGiven, place_or};
ghost use Rattle.value_table.specs.Held.{held_contents};
ghost use Rattle.review_tables.specs.ReviewTable.{ReviewTableReturns};

use crate::kept_memory::KeptMemory;
use crate::placed::Placed;
use crate::placed_request::PlacedRequest;
use crate::placing::placed;
use crate::pooled_document::PooledDocument;
use crate::review_error::ReviewError;
use crate::review_table::document_value;
use std::alloc::AllocError;
use std::marker::Model;
use std::rc::Rc;
use value_table::{Heap, Table};

/// A review, read beside the documents of a pool. Its tables share all values.
#[derive(Drop)]
pub struct OpenReview<'r> {
    pub(crate) review: &'r [u8],
    pub(crate) heap: Heap,
    pub(crate) request: PlacedRequest,
    /// Where the null is that takes the place of a missing document.
    pub(crate) null: Placed,
    pub(crate) memory: Rc<KeptMemory>,
}

impl<'r> Model for OpenReview<'r> {
    ghost use Rattle.std.specs.Coded.{codes};
    ghost use Rattle.value_store.specs.Documents.{document_of};
    ghost use Rattle.review_tables.specs.DocumentPool.{HoldsReview, OpenValues, coded_value};
    ghost use Rattle.value_table.specs.Heap.{heap_values, IsHeap};

    ghost Value = { OpenValues };

    ghost coded = { Prim.hlevel (codes, coded_value) };

    ghost view = { λ o. record { review = o.review.now; values = heap_values o.heap } };

    ghost invariant = { λ o. IsHeap o.heap × HoldsReview (heap_values o.heap) o.request o.null (document_of o.review.now) };
}

impl<'r> OpenReview<'r> {
    /// Reads a document beside the review. The documents that were read before keep their places.
    ///
    /// # Errors
    ///
    /// `InvalidDocument` if it is not JSON. `Memory` if an allocation failed.
    pub fn with_document(self, text: &[u8]) -> Result<(OpenReview<'r>, PooledDocument), ReviewError>
        ensures { GrowReturns self.entry result (document_of text.now) }
    {
        let OpenReview {
            review,
            mut heap,
            request,
            null,
            memory,
        } = self;
        let mut reading = memory.take(heap.alloc())?;
        let placed = document_value(&mut heap, &mut reading, text)?;
        memory.keep(reading, text.len());
        let opened = OpenReview {
            review,
            heap,
            request,
            null,
            memory,
        };
        Ok((opened, PooledDocument { placed }))
    }

    /// A copy that shares the values.
    pub fn copy(&self) -> Result<OpenReview<'r>, AllocError>
        ensures { IfOk result (λ o. o ≡ self.now) }
    {
        Ok(OpenReview {
            review: self.review,
            heap: self.heap.copy()?,
            request: self.request,
            null: self.null,
            memory: self.memory.clone()?,
        })
    }

    /// The table of the roots of the review with a namespace and params, which were read beside it.
    /// A missing one is null. The result is the same as that of `table_of_review`.
    pub fn table(
        self,
        namespace: Option<PooledDocument>,
        params: Option<PooledDocument>,
    ) -> Result<Table, ReviewError>
        requires namespace { IsSoundGiven self.values namespace }
        requires params { IsSoundGiven self.values params }
        ensures { (n p : json.Data) → IsGiven self.entry.values namespace n → IsGiven self.entry.values params p
            → ReviewTableReturns held_contents result (option_and_then parts_in (document_of self.entry.review)) (Some n) (Some p) }
    {
        let OpenReview {
            review: _,
            heap,
            request,
            null,
            memory: _,
        } = self;
        let roots = [
            request.object,
            request.old_object,
            place_or(params, null),
            place_or(namespace, null),
            request.rest,
        ];
        placed(heap, &roots)
    }
}

/// Where a document's value is, and else this.
fn place_or(document: Option<PooledDocument>, null: Placed) -> Option<Placed>
    ensures { result ≡ place_or document null }
{
    match document {
        Some(document) => document.placed,
        None => Some(null),
    }
}
