//! Match conditions that name the namespace of a request.

use super::{assert_none, policy_text, read_policy};
use policy_glue::{Policy, conditions_name_namespace};
use std::alloc::{AllocError, Global};

/// A condition, and whether it names the namespace.
const CONDITIONS: [(&str, bool); 6] = [
    ("namespaceObject == null", true),
    ("object.a.all(x, x == namespaceObject.b)", true),
    ("{'a': [1, -namespaceObject.b]} == {}", true),
    ("has(namespaceObject.b) ? true : false", true),
    ("object.namespaceObject == 1", false),
    ("object.a == 'namespaceObject'", false),
];

/// The specification with this match condition, whose validation names the namespace.
fn spec_of(alloc: Global, condition: &str) -> Result<String, AllocError> {
    let head = r#"{"matchConditions":[{"name":"a","expression":"true"},{"name":"b","expression":""#;
    let tail = r#""}],"validations":[{"expression":"namespaceObject == null"}]}"#;
    [head, condition, tail].join(alloc, "")
}

/// The policy of this document, if it is read.
fn policy_of(alloc: Global, text: Result<String, AllocError>) -> Option<Policy> {
    let text = text.ok()?;
    read_policy(alloc, text.as_str()).ok()
}

/// The policy with this match condition.
fn policy_with(alloc: Global, condition: &str) -> Option<Policy> {
    let spec = spec_of(alloc, condition).ok()?;
    policy_of(alloc, policy_text(alloc, spec.as_str()))
}

/// Whether the policy with this match condition names the namespace there.
fn names_namespace(alloc: Global, condition: &str) -> Option<bool> {
    let policy = policy_with(alloc, condition)?;
    conditions_name_namespace(alloc, &policy).ok()
}

fn wrong_condition(alloc: Global) -> Option<&'static str> {
    for &(condition, names) in &CONDITIONS {
        if names_namespace(alloc, condition) != Some(names) {
            return Some(condition);
        }
    }
    None
}

#[test]
fn conditions_that_name_the_namespace(rt: HostRuntime) {
    assert_none(&rt, Ok(wrong_condition(rt.alloc())));
}
