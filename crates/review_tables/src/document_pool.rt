//! Documents that are read once, for any number of reviews.

ghost use Rattle.std.specs.Prelude.{◌≡◌, [], IfOk};
ghost use Rattle.value_store.specs.Documents.{document_of};
ghost use Rattle.review_tables.specs.DocumentPool.{HoldsReview, OpenReturns, PoolReturns};
ghost use Rattle.value_table.specs.Heap.{heap_values};

use crate::kept_memory::KeptMemory;
use crate::open_review::OpenReview;
use crate::pooled_document::PooledDocument;
use crate::reading::add_null;
use crate::review_error::ReviewError;
use crate::review_table::{document_value, review_values};
use std::alloc::{AllocError, Global};
use std::marker::Model;
use std::rc::Rc;
use value_table::Heap;

/// The values of documents. Copies share them, and the memory for reading.
#[derive(Drop)]
pub struct DocumentPool {
    heap: Heap,
    memory: Rc<KeptMemory>,
}

impl Model for DocumentPool {
    ghost use Rattle.std.specs.Coded.{codes};
    ghost use Rattle.review_tables.specs.DocumentPool.{coded_value};
    ghost use Rattle.std.specs.Prelude.{List};
    ghost use Rattle.value_store.specs.Value as kind;
    ghost use Rattle.value_table.specs.Heap.{heap_values, IsHeap};

    ghost Value = { List kind.Value };

    ghost coded = { Prim.hlevel (codes, coded_value) };

    ghost view = { λ p. heap_values p.heap };

    ghost invariant = { λ p. IsHeap p.heap };
}

impl DocumentPool {
    /// A pool without documents.
    pub fn new(alloc: Global) -> Result<DocumentPool, AllocError>
        ensures { IfOk result (λ p. p ≡ []) }
    {
        Ok(DocumentPool {
            heap: Heap::new(alloc)?,
            memory: KeptMemory::shared(alloc)?,
        })
    }

    /// A copy that shares the values.
    pub fn copy(&self) -> Result<DocumentPool, AllocError>
        ensures { IfOk result (λ p. p ≡ self.now) }
    {
        Ok(DocumentPool {
            heap: self.heap.copy()?,
            memory: self.memory.clone()?,
        })
    }

    /// Reads a document. The documents that were read before keep their places.
    ///
    /// # Errors
    ///
    /// `InvalidDocument` if it is not JSON. `Memory` if an allocation failed.
    pub fn with_document(self, text: &[u8]) -> Result<(DocumentPool, PooledDocument), ReviewError>
        ensures { PoolReturns self result (document_of text.now) }
    {
        let DocumentPool { mut heap, memory } = self;
        let mut reading = memory.take(heap.alloc())?;
        let placed = document_value(&mut heap, &mut reading, text)?;
        memory.keep(reading, text.len());
        Ok((DocumentPool { heap, memory }, PooledDocument { placed }))
    }

    /// Reads a review (AdmissionReview, `admission.k8s.io/v1`) beside the documents.
    ///
    /// # Errors
    ///
    /// `InvalidReview` if it is no review. `Memory` if an allocation failed.
    pub fn open<'r>(self, review: &'r [u8]) -> Result<OpenReview<'r>, ReviewError>
        ensures { OpenReturns self result review.now }
    {
        let DocumentPool { mut heap, memory } = self;
        heap.reserve_for(review.len())?;
        let mut reading = memory.take(heap.alloc())?;
        let request = review_values(&mut heap, &mut reading, review)?;
        memory.keep(reading, review.len());
        let null = add_null(&mut heap)?;
        Ok(OpenReview {
            review,
            heap,
            request,
            null,
            memory,
        })
    }
}
