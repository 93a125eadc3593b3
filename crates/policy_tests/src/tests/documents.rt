//! Policies that are read, and why others are refused.

use super::{assert_none, cells, policy_text, read_policy};
use policy_glue::PolicyError;
use std::alloc::{AllocError, Global};

/// The error of the document, if it is refused.
fn refusal(alloc: Global, text: &str) -> Option<PolicyError> {
    read_policy(alloc, text).err()
}

/// The code of the document's error; empty if it is read.
fn named(alloc: Global, text: &str) -> &'static str {
    match refusal(alloc, text) {
        Some(error) => error.code(),
        None => "",
    }
}

/// The code of the error of the policy with this specification; empty if it is read.
fn spec_named(alloc: Global, spec: &str) -> Result<&'static str, AllocError> {
    let text = policy_text(alloc, spec)?;
    Ok(named(alloc, text.as_str()))
}

/// One row per line: a specification, a broken bar and its error code, which is empty if there is none.
const SPECS: &str = r#"{"validations":[]}¦K4
{}¦K3
{"validations":{}}¦K3
{"validations":[{}]}¦K3
{"validations":[{"expression":1}]}¦K3
{"validations":[],"variables":[{"name":"1","expression":"a"}]}¦K3
[]¦K3"#;

/// Rows like those of `SPECS`, with the text after the first expression of a specification's validations.
const ENDS: &str = r#"}]}¦
,"x":1}]}¦K3
,"message":null}]}¦K3
,"message":""}]}¦
,"message":"a\nb"}]}¦K8
,"message":"a\rb"}]}¦K8
,"reason":""}]}¦K3
,"reason":"Forbidden"}]}¦
,"messageExpression":""}]}¦
,"messageExpression":1}]}¦K3
}],"failurePolicy":"Ignore"}¦
}],"failurePolicy":"ignore"}¦K3
}],"failurePolicy":null}¦K3
}],"paramKind":{"a":[]},"matchConstraints":{}}¦
}],"paramKind":null}¦K3
}],"matchConstraints":[]}¦K3
}],"auditAnnotations":[]}¦K3
}],"matchConditions":[{"name":"a b","expression":"a"}]}¦
}],"matchConditions":[{"name":"","expression":"a"}]}¦K3
}],"matchConditions":[{"name":"c","expression":"a"},{"name":"d","expression":"a"},{"name":"c","expression":"b"}]}¦K3
}],"matchConditions":[{"name":"c","expression":"a"}],"variables":[{"name":"c","expression":"a"}]}¦
}],"variables":[{"name":"object","expression":"a"}]}¦
}],"variables":[{"name":"in","expression":"a"}]}¦K3
}],"variables":[{"name":"a b","expression":"a"}]}¦K3
}],"variables":[{"name":"v","expression":"a"},{"name":"w","expression":"a"},{"name":"v","expression":"b"}]}¦K3"#;

fn wrong_specification(alloc: Global) -> Result<Option<&'static str>, AllocError> {
    for line in SPECS.lines() {
        let (spec, want) = cells(line);
        if spec_named(alloc, spec)? != want {
            return Ok(Some(spec));
        }
    }
    Ok(None)
}

/// The code of the error of the policy whose specification ends so; empty if it is read.
fn end_named(alloc: Global, end: &str) -> Result<&'static str, AllocError> {
    let spec = [r#"{"validations":[{"expression":"a""#, end].join(alloc, "")?;
    spec_named(alloc, spec.as_str())
}

fn wrong_end(alloc: Global) -> Result<Option<&'static str>, AllocError> {
    for line in ENDS.lines() {
        let (end, want) = cells(line);
        if end_named(alloc, end)? != want {
            return Ok(Some(end));
        }
    }
    Ok(None)
}

#[test]
fn specifications(rt: HostRuntime) {
    assert_none(&rt, wrong_specification(rt.alloc()));
    assert_none(&rt, wrong_end(rt.alloc()));
}

/// Rows like those of `SPECS`, with documents.
const DOCUMENTS: &str = r#"{¦K1
¦K1
[]¦K2
{}¦K2
{"apiVersion":"v1","kind":"ValidatingAdmissionPolicy","spec":1,"x":1}¦K2
{"apiVersion":"admissionregistration.k8s.io/v1","kind":"ValidatingAdmissionPolicy","metadata":null}¦K3"#;

fn wrong_document(alloc: Global) -> Option<&'static str> {
    for line in DOCUMENTS.lines() {
        let (text, want) = cells(line);
        if named(alloc, text) != want {
            return Some(text);
        }
    }
    None
}

#[test]
fn documents(rt: HostRuntime) {
    assert_none(&rt, Ok(wrong_document(rt.alloc())));
}

/// A text, then another, if there was memory for both.
fn joined(
    alloc: Global,
    first: Result<String, AllocError>,
    second: Result<String, AllocError>,
) -> Result<String, AllocError> {
    let first = first?;
    let second = second?;
    [first.as_str(), second.as_str()].join(alloc, "")
}

/// The code of the error for this many nested lists; empty if they are read.
fn nested_named(alloc: Global, n: usize) -> Result<&'static str, AllocError> {
    let text = joined(alloc, "[".repeat(alloc, n), "]".repeat(alloc, n))?;
    Ok(named(alloc, text.as_str()))
}

#[test]
fn nested_documents(rt: HostRuntime) {
    assert!(rt; nested_named(rt.alloc(), 127) == Ok("K2"));
    assert!(rt; nested_named(rt.alloc(), 200) == Ok("K1"));
}
