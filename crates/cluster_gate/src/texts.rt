//! JSON texts of values.
ghost use Rattle.std.specs.Prelude.{option_map, IfOk};
ghost use Rattle.serde_json.specs.View.{view};
ghost use Rattle.cluster_gate.specs.CompiledDocuments.{compiled_document};
ghost use Rattle.cluster_gate.specs.Texts.{IsJsonTextOf, IsJsonTextIf};

use crate::policy_document::compiled_document;
use serde_json::Value;
use std::alloc::{AllocError, Global};

/// The text of the document of a policy as it is compiled.
pub(crate) fn compiled_text(alloc: Global, document: &Value) -> Result<Vec<u8>, AllocError>
    ensures { IfOk result (λ b. IsJsonTextOf (compiled_document (view document.now)) b.items) }
{
    let document = compiled_document(alloc, document)?;
    text_of(alloc, &document)
}

/// The text of a value that may be absent.
pub(crate) fn text_if(alloc: Global, value: Option<&Value>) -> Result<Option<Vec<u8>>, AllocError>
    ensures { IfOk result (λ o. IsJsonTextIf (option_map (λ v. view v.now) value.entry) (option_map (λ b. b.items) o)) }
{
    match value {
        Some(value) => Ok(Some(text_of(alloc, value)?)),
        None => Ok(None),
    }
}

/// The text of a value.
pub(crate) fn text_of(alloc: Global, value: &Value) -> Result<Vec<u8>, AllocError>
    ensures { IfOk result (λ b. IsJsonTextOf (view value.now) b.items) }
{
    let text = value.to_vec(alloc)?;
    Ok(text)
}
