//! A namespace and params that are parsed once for any number of reviews.

ghost use Rattle.std.specs.Prelude.{◌≡◌, Option, option_map, option_and_then, string_bytes, IfOk};
ghost use Rattle.serde_json.specs.Data.{Data};
ghost use Rattle.value_store.specs.Documents.{document_given, document_of};
ghost use Rattle.value_store.specs.Reviews.{parts_in, uid_in};
ghost use Rattle.value_table.specs.Held.{held_contents};
ghost use Rattle.review_tables.specs.OtherRoots.{ArePlaced, ArePlacedOthers};
ghost use Rattle.review_tables.specs.ReviewTable.{ReviewTableReturns};

use crate::kept_memory::KeptMemory;
use crate::other_roots::PlacedOthers;
use crate::read_memory::ReadMemory;
use crate::review_error::ReviewError;
use crate::review_table::{opened, read_others, table_of_review};
use std::alloc::Global;
use std::marker::Model;
use value_table::Table;

/// A namespace and params. The tables of all reviews share their values.
#[derive(Drop)]
pub struct SharedDocuments {
    alloc: Global,
    namespace: Option<Vec<u8>>,
    params: Option<Vec<u8>>,
    /// `None` if an allocation failed; then they are parsed for each review.
    values: Option<PlacedOthers>,
    memory: KeptMemory,
}

impl Model for SharedDocuments {
    ghost use Rattle.std.specs.Prelude.{option_map};
    ghost use Rattle.review_tables.specs.OtherRoots.{AreOthersOf, OtherDocuments};

    ghost Value = { OtherDocuments };

    ghost view = { λ s. record { namespace = option_map (λ b. b.items) s.namespace; params = option_map (λ b. b.items) s.params } };

    ghost invariant = { λ s. AreOthersOf s.values (record { namespace = option_map (λ b. b.items) s.namespace; params = option_map (λ b. b.items) s.params }) };
}

impl SharedDocuments {
    /// Parses these documents. A missing one is null.
    pub fn new(
        alloc: Global,
        namespace: Option<Vec<u8>>,
        params: Option<Vec<u8>>,
    ) -> SharedDocuments
        ensures namespace { result.namespace ≡ option_map (λ b. b.items) namespace }
        ensures params { result.params ≡ option_map (λ b. b.items) params }
    {
        let mut memory = ReadMemory::new(alloc);
        let namespace_bytes = namespace.as_deref();
        let params_bytes = params.as_deref();
        let values = read_others(alloc, &mut memory, namespace_bytes, params_bytes).ok();
        SharedDocuments {
            alloc,
            namespace,
            params,
            values,
            memory: KeptMemory::new(),
        }
    }

    /// The table of the roots of a review (AdmissionReview, `admission.k8s.io/v1`) with these
    /// documents, and the uid of the review's request. The result is the same as that of
    /// `table_of_review`.
    pub fn table_of(&self, review: &[u8]) -> Result<(Table, String), ReviewError>
        ensures table { ReviewTableReturns (λ r. held_contents r.0) result (option_and_then parts_in (document_of review.now)) (document_given self.now.namespace) (document_given self.now.params) }
        ensures uid { IfOk result (λ r. string_bytes r.1 ≡ uid_in review.now) }
    {
        match &self.values {
            Some(values) => self.opened(values.copy(review.len())?, review),
            None => table_of_review(
                self.alloc,
                review,
                self.namespace.as_deref(),
                self.params.as_deref(),
            ),
        }
    }

    /// The table of a review with these values, read with the memory that is kept.
    fn opened(&self, others: PlacedOthers, review: &[u8]) -> Result<(Table, String), ReviewError>
        requires { ArePlaced others }
        ensures table { (namespace params : Option Data) → ArePlacedOthers others namespace params
            → ReviewTableReturns (λ r. held_contents r.0) result (option_and_then parts_in (document_of review.now)) namespace params }
        ensures uid { IfOk result (λ r. string_bytes r.1 ≡ uid_in review.now) }
    {
        let mut memory = self.memory.take(self.alloc)?;
        let table = opened(others, &mut memory, review);
        self.memory.keep(memory, review.len());
        table
    }
}
