//! Reads documents before reviews, and reviews beside them.

ghost use Rattle.std.specs.Prelude.{◌≡◌, IfOk, IfSome};

use crate::base::Base;
use crate::opened_review::OpenedReview;
use crate::read_document::{ReadDocument, name_of};
use crate::texts::text_of;
use review_tables::{DocumentPool, ReviewError};
use serde_json::Value;
use std::alloc::{AllocError, Global};
use std::cell::Cell;

/// The length that is counted for a base itself, in addition to the texts that were read.
const BASE_LENGTH: usize = 1024;

impl<'a> Base<'a> {
    /// A base without documents, whose name has this length.
    pub(crate) fn of(alloc: Global, pool: DocumentPool, length: usize) -> Base<'a> {
        Base {
            pool,
            documents: Vec::new(alloc),
            length: length.saturating_add(BASE_LENGTH),
        }
    }

    /// A copy that shares the values.
    pub(crate) fn copy(&self, alloc: Global) -> Result<Base<'a>, AllocError> {
        let pool = self.pool.copy()?;
        let documents = copied(alloc, &self.documents)?;
        Ok(Base {
            pool,
            documents,
            length: self.length,
        })
    }

    /// The base with one more document, or a copy if the document's text is not read.
    pub(crate) fn with_document(
        &self,
        alloc: Global,
        document: &'a Value,
    ) -> Result<Base<'a>, AllocError> {
        let text = text_of(alloc, document)?;
        let length = self.length.saturating_add(text.len());
        let name = name_of(document);
        let before = self.pool.copy()?;
        match before.with_document(text.as_slice()) {
            Ok((pool, pooled)) => {
                let mut documents = copied(alloc, &self.documents)?;
                documents.push(ReadDocument {
                    name,
                    document,
                    pooled,
                })?;
                Ok(Base {
                    pool,
                    documents,
                    length,
                })
            }
            Err(ReviewError::Memory) => Err(AllocError),
            Err(_) => self.copy(alloc),
        }
    }

    /// Reads a review beside the documents. None if the bytes are no review.
    pub(crate) fn open<'r>(
        self,
        review: &'r [u8],
    ) -> Result<Option<OpenedReview<'a, 'r>>, AllocError>
        ensures { IfOk result (λ o. IfSome o (λ r. r.review ≡ review.now)) }
    {
        let Base {
            pool,
            documents,
            length: _,
        } = self;
        match pool.open(review) {
            Ok(review) => Ok(Some(OpenedReview {
                review,
                documents,
                wanted: Cell::new(None),
            })),
            Err(ReviewError::Memory) => Err(AllocError),
            Err(_) => Ok(None),
        }
    }
}

fn copied<'a>(
    alloc: Global,
    documents: &[ReadDocument<'a>],
) -> Result<Vec<ReadDocument<'a>>, AllocError>
    ensures { IfOk result (λ v. v.items ≡ documents.now) }
{
    let mut copy = Vec::with_capacity(alloc, documents.len().saturating_add(1))?;
    copy.extend_from_slice(documents)?;
    Ok(copy)
}
