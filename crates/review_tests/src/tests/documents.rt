//! Reviews with a namespace and params, and the order in which documents are refused.

use super::files::Documents;
use super::{
    ALLOWED, DEFAULT_STEPS, MOST, answered, answers, is_refused, policy_of, printed,
    printed_denial, review_of,
};
use review_runner::Done;
use std::alloc::{AllocError, Global};
use std::test::Fail;

/// The outcome of the review of this object, with a namespace and params if they are given.
fn reviewed_with(
    alloc: Global,
    spec: &str,
    object: &str,
    namespace: Option<&str>,
    params: Option<&str>,
) -> Result<Done, AllocError> {
    let policy = policy_of(alloc, spec)?;
    let review = review_of(alloc, object)?;
    let mut documents = Documents {
        policy: &policy,
        review: &review,
        namespace: bytes_of(namespace),
        params: bytes_of(params),
        image: Vec::new(alloc),
    };
    answered(alloc, &mut documents, DEFAULT_STEPS)
}

fn bytes_of(document: Option<&str>) -> Option<&[u8]> {
    match document {
        Some(text) => Some(text.as_bytes()),
        None => None,
    }
}

/// Two validations: one uses params, the other the namespace.
const BOTH: &str =
    r#"{"paramKind":{},"validations":[{"expression":"object.n <= params.most","message":"params"},{"expression":"namespaceObject.name == 'a'","message":"namespace"}]}"#;

/// Validations that hold only if neither is given.
const NEITHER: &str =
    r#"{"validations":[{"expression":"params == null","message":"params"},{"expression":"namespaceObject == null","message":"namespace"}]}"#;

/// Two namespaces, and params.
const A: Option<&str> = Some("{\"name\":\"a\"}");

const B: Option<&str> = Some("{\"name\":\"b\"}");

const MOST_3: Option<&str> = Some("{\"most\":3}");

/// A policy's specification, the object under review, the namespace and the params, and the message of the
/// denial, which is empty if the request is allowed.
const ANSWERED: [(&str, &str, Option<&str>, Option<&str>, &str); 8] = [
    (BOTH, "{\"n\":3}", A, MOST_3, ""),
    (BOTH, "{\"n\":4}", A, MOST_3, "params"),
    (BOTH, "{\"n\":3}", B, MOST_3, "namespace"),
    (BOTH, "{\"n\":3}", None, MOST_3, "namespace"),
    (BOTH, "{\"n\":3}", A, None, "params"),
    (BOTH, "{\"n\":3}", None, None, "params; namespace"),
    (NEITHER, "{}", None, None, ""),
    (NEITHER, "{}", Some("{}"), Some("null"), "namespace"),
];

#[test]
fn answers_by_namespace_and_params(rt: HostRuntime) -> Result<(), Fail> {
    for (row, &(spec, object, namespace, params, message)) in ANSWERED.iter().enumerate() {
        let done = reviewed_with(rt.alloc(), spec, object, namespace, params)?;
        let (status, wanted) = if message.is_empty() {
            (0, printed(rt.alloc(), ALLOWED)?)
        } else {
            (1, printed_denial(rt.alloc(), message)?)
        };
        assert!(rt; answers(&done, status, &wanted), "row {row}");
    }
    Ok(())
}

/// A policy without validations, which is refused before any document of the review.
const EMPTY: &str = r#"{"validations":[]}"#;

/// A policy's specification, the object under review with the text that follows it in the request, the namespace, the
/// params, and the refusal. The forms of the review, the namespace and the params are checked first; then the roots,
/// in the order of object, oldObject, params, namespace and request.
const REFUSED: [(&str, &str, Option<&str>, Option<&str>, &str); 16] = [
    (MOST, "{}", Some("{}"), Some("{"), "N3"),
    (MOST, "{}", Some("{}"), Some("1"), "N3"),
    (MOST, "{}", Some("{}"), Some("{\"a\":1.5}"), "N3"),
    (MOST, "{}", Some("{"), None, "N3"),
    (MOST, "{}", Some("[]"), None, "N3"),
    (MOST, "{}", Some("{\"a\":1.5}"), None, "N3"),
    (EMPTY, "{", Some("{"), Some("{"), "N1 K4"),
    (EMPTY, "{}", Some("{}"), Some("1"), "N1 K4"),
    (MOST, "{", Some("{"), Some("{"), "N2"),
    (MOST, "1", Some("{"), None, "N3"),
    (MOST, "1", None, Some("{"), "N3"),
    (MOST, "1", Some("1"), Some("1"), "N2"),
    (MOST, "{},\"oldObject\":1", Some("1"), Some("1"), "N2"),
    (MOST, "{},\"a\":1.5", None, Some("1"), "N3"),
    (MOST, "{},\"a\":1.5", Some("1"), None, "N3"),
    (MOST, "{},\"a\":1.5", Some("{}"), Some("{}"), "N2"),
];

#[test]
fn refuses_documents_in_order(rt: HostRuntime) -> Result<(), Fail> {
    for (row, &(spec, object, namespace, params, refusal)) in REFUSED.iter().enumerate() {
        let done = reviewed_with(rt.alloc(), spec, object, namespace, params)?;
        let line = format!(in rt.alloc(); "celbpf: {refusal}\n")?;
        assert!(rt; is_refused(&done, 3, line.as_str()), "row {row}");
    }
    Ok(())
}
