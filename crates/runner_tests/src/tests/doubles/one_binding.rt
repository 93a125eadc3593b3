//! The state of a cluster with one binding.

use host::{FileFailure, FileReadError, ReadableFiles};
use std::alloc::Global;

const HEAD: &str = r#"{"apiVersion":"v1","kind":"List","items":[
"#;

/// The namespaces `prod` and `half`, where the second has a number that is no int, and an object in
/// the first.
const OBJECTS: &str =
    r#"{"apiVersion":"v1","kind":"Namespace","metadata":{"name":"prod","labels":{"env":"prod"}}},
{"apiVersion":"v1","kind":"Namespace","metadata":{"name":"half"},"spec":{"weight":0.5}},
{"apiVersion":"v1","kind":"ConfigMap","metadata":{"name":"limits","namespace":"prod"},"data":{"name":"web"}}"#;

/// A list with a policy, its binding and the objects above, in a file named `state`.
#[derive(Drop)]
pub struct OneBinding<'a> {
    pub policy: &'a str,
    pub binding: &'a str,
}

impl ReadableFiles for OneBinding<'_> {
    ghost use Rattle.std.specs.Prelude.{None};

    ghost known = { λ _. None };

    fn read_file(&mut self, alloc: Global, name: &str) -> Result<Vec<u8>, FileReadError> {
        if name != "state" {
            return Err(FileReadError::Failed(FileFailure::NotFound));
        }
        let mut text = Vec::from_slice(alloc, HEAD.as_bytes())?;
        for part in [self.policy, ",\n", self.binding, ",\n", OBJECTS, "]}"] {
            text.extend_from_slice(part.as_bytes())?;
        }
        Ok(text)
    }
}
