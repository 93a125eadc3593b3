//! Documents of JSON texts.
ghost use Rattle.std.specs.Prelude.{◌≡◌, option_map, IfOk};
ghost use Rattle.serde_json.specs.View.{view};
ghost use Rattle.value_store.specs.Documents.{document_of};

use serde_json::Value;
use std::alloc::{AllocError, Global};

/// Parses a JSON text; `None` if the bytes are not JSON.
#[tactic(auto, using(crate::proofs::Read::document_read, crate::proofs::Read::document_refused))]
pub fn parse_document(alloc: Global, bytes: &[u8]) -> Result<Option<Value>, AllocError>
    ensures { IfOk result (λ v. option_map view v ≡ document_of bytes.now) }
{
    match Value::from_slice(alloc, bytes) {
        Ok(value) => Ok(Some(value)),
        Err(error) if error.is_memory() => Err(AllocError),
        Err(_) => Ok(None),
    }
}
