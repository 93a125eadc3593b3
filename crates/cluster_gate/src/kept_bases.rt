//! Documents that stay read from review to review.

use crate::base::Base;
use cluster_state::State;
use review_tables::DocumentPool;
use serde_json::Value;
use std::alloc::{AllocError, Global};
use std::cell::Cell;
use std::collections::BTreeMap;
use std::rc::Rc;

/// The largest length in bytes of the texts of all documents that stay read.
const KEPT_LENGTH: usize = 1_048_576;

/// The largest number of documents that stay read for a namespace.
const KEPT_DOCUMENTS: usize = 16;

/// The documents that were read before earlier reviews. No answer depends on them.
#[derive(Drop)]
pub(crate) struct KeptBases<'a> {
    alloc: Global,
    /// No documents, with the memory for reading that all bases share.
    empty: DocumentPool,
    /// By the names of the requests' namespaces.
    bases: Cell<Option<BTreeMap<String, Base<'a>>>>,
    /// The sum of their lengths.
    length: Cell<usize>,
}

impl<'a> KeptBases<'a> {
    /// No document is read yet.
    pub(crate) fn shared(alloc: Global) -> Result<Rc<KeptBases<'a>>, AllocError> {
        let kept = KeptBases {
            alloc,
            empty: DocumentPool::new(alloc)?,
            bases: Cell::new(None),
            length: Cell::new(0),
        };
        Rc::new(alloc, kept).ok().ok_or(AllocError)
    }

    /// The documents that are read before a review of a request in this namespace: the namespace,
    /// and params of earlier evaluations there.
    pub(crate) fn base(&self, state: &State<'a>, name: &str) -> Result<Base<'a>, AllocError> {
        if let Some(base) = self.found(name)? {
            return Ok(base);
        }
        let base = self.first(state, name)?;
        self.put(name, base.copy(self.alloc)?)?;
        Ok(base)
    }

    /// Keeps one more document read for later reviews of requests in this namespace.
    pub(crate) fn keep(&self, name: &str, document: &'a Value) -> Result<(), AllocError> {
        if let Some(base) = self.found(name)? {
            if base.documents.len() < KEPT_DOCUMENTS {
                return self.put(name, base.with_document(self.alloc, document)?);
            }
        }
        Ok(())
    }

    /// A copy of the base of this namespace, if there is one.
    fn found(&self, name: &str) -> Result<Option<Base<'a>>, AllocError> {
        let bases = self.taken();
        let base = match bases.get(name) {
            Some(base) => Some(base.copy(self.alloc)?),
            None => None,
        };
        self.bases.set(Some(bases));
        Ok(base)
    }

    /// A base with the namespace alone, if that is in the state.
    fn first(&self, state: &State<'a>, name: &str) -> Result<Base<'a>, AllocError> {
        let base = Base::of(self.alloc, self.empty.copy()?, name.len());
        match state.namespace(name) {
            Some(document) => base.with_document(self.alloc, document.value),
            None => Ok(base),
        }
    }

    /// Keeps the base of this namespace, unless it is too long. If too much is kept, all others are
    /// dropped.
    fn put(&self, name: &str, base: Base<'a>) -> Result<(), AllocError> {
        if base.length > KEPT_LENGTH {
            return Ok(());
        }
        let mut bases = self.taken();
        let mut length = self.length.get();
        if let Some(old) = bases.remove(name) {
            length = length.saturating_sub(old.length);
        }
        length = length.saturating_add(base.length);
        if length > KEPT_LENGTH {
            bases = BTreeMap::new(self.alloc);
            length = base.length;
        }
        drop(bases.insert(String::from_str(self.alloc, name)?, base)?);
        self.length.set(length);
        self.bases.set(Some(bases));
        Ok(())
    }

    /// The bases, which are then put back.
    fn taken(&self) -> BTreeMap<String, Base<'a>> {
        match self.bases.replace(None) {
            Some(bases) => bases,
            None => BTreeMap::new(self.alloc),
        }
    }
}
