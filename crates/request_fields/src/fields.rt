//! The fields of a review.
ghost use Rattle.std.specs.Prelude.{◌≡◌, Err, IfOk, None, Some, option_map};
ghost use Rattle.serde_json.specs.Read.{read};
ghost use Rattle.serde_json.specs.View.{view};
ghost use Rattle.value_store.specs.Documents.{document_of};
ghost use Rattle.request_fields.specs.Fields.{kept};
ghost use Rattle.request_fields.specs.declared.level.Level.TheVariants.{Review};

use crate::level::Level;
use crate::reading::{MAX_DEPTH, read_value};
use json::{Error, Reader, Scratch};
use serde_json::Value;
use std::alloc::{AllocError, Global};

/// The document of a review with the fields alone that matching and the response read; none if the
/// bytes are not JSON. Any other value in their place is false.
///
/// # Errors
///
/// An allocation failed.
pub fn read_fields(alloc: Global, review: &[u8]) -> Result<Option<Value>, AllocError>
    ensures { IfOk result (λ o. option_map view o ≡ option_map (kept Review) (document_of review.now)) }
{
    let Ok(text) = simdutf8::basic::from_utf8(review) else {
        return Ok(None);
    };
    let mut scratch = Scratch::new(alloc);
    match read_text(alloc, text, &mut scratch) {
        Ok(document) => Ok(Some(document)),
        Err(Error::Invalid) => Ok(None),
        Err(_) => Err(AllocError),
    }
}

// What is kept of the document of a text.
fn read_text(alloc: Global, text: &str, scratch: &mut Scratch) -> Result<Value, Error>
    ensures read { IfOk result (λ v. option_map (kept Review) (read text.now) ≡ Some (view v)) }
    ensures refused { result ≡ Err Error.Invalid → read text.now ≡ None }
{
    let mut reader = Reader::new(text, scratch)?;
    let document = read_value(alloc, &mut reader, Level::Review, MAX_DEPTH)?;
    if reader.next().is_some() {
        return Err(Error::Invalid);
    }
    Ok(document)
}
