//! Tables of reviews, read from the texts of their documents.

ghost use Rattle.std.specs.Prelude.{◌≡◌, ◌<◌, ℕ, List, length, OnOk, Option, Some, option_map, option_and_then, string_bytes, IfOk};
ghost use Rattle.serde_json.specs.Data.{null, Data};
ghost use Rattle.serde_json.specs.Read.{read as read_text};
ghost use Rattle.value_store.specs.Value as kind;
ghost use Rattle.value_table.specs.Growing.{IsValueAt};
ghost use Rattle.value_table.specs.Heap.{heap_values, IsHeap};
ghost use Rattle.value_store.specs.Documents.{document_given, document_of};
ghost use Rattle.value_store.specs.Reviews.{null_parts, parts_in, uid_in};
ghost use Rattle.value_table.specs.Held.{held_contents};
ghost use Rattle.review_tables.specs.OtherRoots.{ArePlaced, ArePlacedOthers};
ghost use Rattle.review_tables.specs.ReviewTable.{DocumentReturns, OthersReturn, ReviewReturns, ReviewTableReturns};

use crate::other_roots::{OtherRoots, PlacedOthers};
use crate::placed::Placed;
use crate::placed_request::PlacedRequest;
use crate::placing::placed;
use crate::read_error::ReadError;
use crate::read_memory::ReadMemory;
use crate::reading::{add_null, read_text};
use crate::review::read_review;
use crate::review_error::ReviewError;
use std::alloc::{AllocError, Global};
use value_table::{Heap, Table};

/// The table of the roots of a review (AdmissionReview, `admission.k8s.io/v1`), a namespace and
/// params, read in one pass, and the uid of the review's request. A missing namespace or params
/// is null.
///
/// The first refusal is returned. The review's form is checked first, then the namespace and
/// the params, then the roots by their references, then the charge. An allocation may fail
/// before.
pub fn table_of_review(
    alloc: Global,
    review: &[u8],
    namespace: Option<&[u8]>,
    params: Option<&[u8]>,
) -> Result<(Table, String), ReviewError>
    ensures table { let parts = option_and_then parts_in (document_of review.now) in
        let namespace_given = document_given (option_map (λ b. b.now) namespace.entry) in
        let params_given = document_given (option_map (λ b. b.now) params.entry) in
        ReviewTableReturns (λ r. held_contents r.0) result parts namespace_given params_given }
    ensures uid { IfOk result (λ r. string_bytes r.1 ≡ uid_in review.now) }
{
    let mut memory = ReadMemory::new(alloc);
    let others = read_others(alloc, &mut memory, namespace, params)?;
    opened(others, &mut memory, review)
}

/// The table without a review: the roots of the review are null.
pub fn table_without_review(
    alloc: Global,
    namespace: Option<&[u8]>,
    params: Option<&[u8]>,
) -> Result<Table, ReviewError>
    ensures { let namespace_given = document_given (option_map (λ b. b.now) namespace.entry) in
        let params_given = document_given (option_map (λ b. b.now) params.entry) in
        ReviewTableReturns held_contents result (Some null_parts) namespace_given params_given }
{
    let mut memory = ReadMemory::new(alloc);
    let others = read_others(alloc, &mut memory, namespace, params)?;
    let PlacedOthers { mut heap, places } = others;
    let Some(places) = places else {
        return Err(ReviewError::InvalidDocument);
    };
    let null = Some(add_null(&mut heap)?);
    let roots = [null, null, places.params, places.namespace, null];
    placed(heap, &roots)
}

/// The table of a review with these values, and the uid of the review's request.
pub(crate) fn opened(
    others: PlacedOthers,
    memory: &mut ReadMemory,
    review: &[u8],
) -> Result<(Table, String), ReviewError>
    requires { ArePlaced others }
    ensures table { (namespace params : Option Data) → ArePlacedOthers others namespace params
        → ReviewTableReturns (λ r. held_contents r.0) result (option_and_then parts_in (document_of review.now)) namespace params }
    ensures uid { IfOk result (λ r. string_bytes r.1 ≡ uid_in review.now) }
{
    let PlacedOthers { mut heap, places } = others;
    let alloc = heap.alloc();
    let request = review_values(&mut heap, memory, review)?;
    let Some(places) = places else {
        return Err(ReviewError::InvalidDocument);
    };
    let uid = String::from_str(alloc, text_at(&heap, request.uid))?;
    let roots = [
        request.object,
        request.old_object,
        places.params,
        places.namespace,
        request.rest,
    ];
    let table = placed(heap, &roots)?;
    Ok((table, uid))
}

impl PlacedOthers {
    /// A copy that shares everything unchanged, with capacity for the values of a document of this
    /// length.
    pub(crate) fn copy(&self, length: usize) -> Result<PlacedOthers, AllocError>
        requires { ArePlaced self.now }
        ensures placed { IfOk result (λ o. ArePlaced o) }
        ensures same { IfOk result (λ o. (namespace params : Option Data) → ArePlacedOthers self.now namespace params → ArePlacedOthers o namespace params) }
    {
        let heap = self.heap.copy_for(length)?;
        Ok(PlacedOthers {
            heap,
            places: self.places,
        })
    }
}

/// Reads a namespace and params. A missing one is null.
pub(crate) fn read_others(
    alloc: Global,
    memory: &mut ReadMemory,
    namespace: Option<&[u8]>,
    params: Option<&[u8]>,
) -> Result<PlacedOthers, AllocError>
    ensures { IfOk result (λ o. ArePlacedOthers o (document_given (option_map (λ b. b.now) namespace.entry)) (document_given (option_map (λ b. b.now) params.entry))) }
{
    let mut heap = Heap::new(alloc)?;
    match other_roots(&mut heap, memory, namespace, params) {
        Ok(places) => Ok(PlacedOthers {
            heap,
            places: Some(places),
        }),
        Err(ReviewError::InvalidDocument) => Ok(PlacedOthers {
            heap: Heap::new(alloc)?,
            places: None,
        }),
        Err(_) => Err(AllocError),
    }
}

#[tactic(auto, using(crate::proofs::ReviewTables::others_are_read, crate::proofs::ReviewTables::namespace_refused, crate::proofs::ReviewTables::params_refused))]
fn other_roots(
    heap: &mut Heap,
    memory: &mut ReadMemory,
    namespace: Option<&[u8]>,
    params: Option<&[u8]>,
) -> Result<OtherRoots, ReviewError>
    requires { IsHeap heap.old }
    ensures { OthersReturn heap.new result (document_given (option_map (λ b. b.now) namespace.entry)) (document_given (option_map (λ b. b.now) params.entry)) }
{
    let namespace = optional_value(heap, memory, namespace)?;
    let params = optional_value(heap, memory, params)?;
    Ok(OtherRoots { namespace, params })
}

// Reads a review and returns where the values of its request are.
#[tactic(auto, using(crate::proofs::ReviewTables::review_is_read, crate::proofs::ReviewTables::no_review, crate::proofs::ReviewTables::no_document))]
pub(crate) fn review_values(
    heap: &mut Heap,
    memory: &mut ReadMemory,
    bytes: &[u8],
) -> Result<PlacedRequest, ReviewError>
    requires { IsHeap heap.old }
    ensures { ReviewReturns heap.old heap.new result (document_of bytes.now) }
{
    let Some(text) = utf8(bytes) else {
        return Err(ReviewError::InvalidReview);
    };
    match read_review(heap, text, memory) {
        Ok(Some(request)) => Ok(request),
        Ok(None) => Err(ReviewError::InvalidReview),
        Err(ReadError::Invalid) => Err(ReviewError::InvalidReview),
        Err(ReadError::Memory) => Err(ReviewError::Memory),
    }
}

// The value of a document; null if it is missing.
fn optional_value(
    heap: &mut Heap,
    memory: &mut ReadMemory,
    bytes: Option<&[u8]>,
) -> Result<Option<Placed>, ReviewError>
    requires { IsHeap heap.old }
    ensures { DocumentReturns heap.old heap.new result (document_given (option_map (λ b. b.now) bytes.entry)) }
{
    match bytes {
        Some(bytes) => document_value(heap, memory, bytes),
        None => null_value(heap),
    }
}

#[tactic(auto, using(crate::proofs::ReviewTables::document_is_read))]
pub(crate) fn document_value(
    heap: &mut Heap,
    memory: &mut ReadMemory,
    bytes: &[u8],
) -> Result<Option<Placed>, ReviewError>
    requires { IsHeap heap.old }
    ensures { DocumentReturns heap.old heap.new result (document_of bytes.now) }
{
    let Some(text) = utf8(bytes) else {
        return Err(ReviewError::InvalidDocument);
    };
    match read_text(heap, text, memory) {
        Ok(value) => Ok(value),
        Err(ReadError::Invalid) => Err(ReviewError::InvalidDocument),
        Err(ReadError::Memory) => Err(ReviewError::Memory),
    }
}

fn null_value(heap: &mut Heap) -> Result<Option<Placed>, ReviewError>
    requires { IsHeap heap.old }
    ensures { DocumentReturns heap.old heap.new result (Some null) }
{
    match add_null(heap) {
        Ok(placed) => Ok(Some(placed)),
        Err(_) => Err(ReviewError::Memory),
    }
}

// The bytes as a text, if they are UTF-8.
#[tactic(auto, using(crate::proofs::ReviewTables::text_read, crate::proofs::ReviewTables::text_refused))]
fn utf8(bytes: &[u8]) -> Option<&str>
    ensures { option_and_then read_text (option_map (λ s. s.now) result) ≡ document_of bytes.now }
{
    match simdutf8::basic::from_utf8(bytes) {
        Ok(text) => Some(text),
        Err(_) => None,
    }
}

// The text at this place.
#[tactic(auto, using(crate::proofs::ReviewTables::text_there))]
fn text_at(heap: &Heap, place: u64) -> &str
    requires heap { IsHeap heap.now }
    requires inside { place < length (heap_values heap.now) }
    ensures { (s : List ℕ) → IsValueAt (heap_values heap.now) place (kind.text s) → result.now ≡ s }
{
    match heap.text(place) {
        Some(text) => text,
        None => "",
    }
}
