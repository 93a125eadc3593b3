//! Definitions that the tests share.

use policy_glue::{Policy, PolicyError};
use serde_json::Value;
use std::alloc::{AllocError, Global};
use std::process::Abort;

mod code;
mod compiling;
mod documents;
mod errors;
mod long_messages;
mod naming;

/// Asserts that there is no first row that is wrong, which would have this name.
pub fn assert_none(rt: &impl Abort, wrong: Result<Option<&str>, AllocError>) {
    assert!(rt; matches!(wrong, Ok(None)), "row {wrong:?}");
}

/// The start of a policy, before its specification.
const HEAD: &str =
    r#"{"apiVersion":"admissionregistration.k8s.io/v1","kind":"ValidatingAdmissionPolicy","spec":"#;

/// The policy with this specification.
pub fn policy_text(alloc: Global, spec: &str) -> Result<String, AllocError> {
    [HEAD, spec, "}"].join(alloc, "")
}

/// The policy of this document.
pub fn read_policy(alloc: Global, text: &str) -> Result<Policy, PolicyError> {
    Policy::read(alloc, text.as_bytes())
}

/// Five null roots.
pub fn nulls() -> [Value; 5] {
    Default::default()
}

/// A line of a table of texts: the text before its broken bar, and the text after it.
pub fn cells(line: &str) -> (&str, &str) {
    line.split_once('¦').unwrap_or((line, ""))
}
