//! Documents of reviews that are refused.

use RunError::{NamespaceOrParamsRefused, ReviewRefused};
use review_runner::{RunError, roots};
use std::alloc::{AllocError, Global};
use std::test::Fail;
use value_store::CHARGE_LIMIT;

/// A review of an object: the text before the object, and the text after it.
const REVIEW: &[u8] =
    br#"{"apiVersion":"admission.k8s.io/v1","kind":"AdmissionReview","request":{"uid":"u1","object":{"spec":{"replicas":5}}}}"#;

const HEAD: &[u8] =
    br#"{"apiVersion":"admission.k8s.io/v1","kind":"AdmissionReview","request":{"uid":"u1","object":"#;

const TAIL: &[u8] = b"}}";

/// The error for these documents.
fn refusal(
    alloc: Global,
    review: Option<&[u8]>,
    namespace: Option<&[u8]>,
    params: Option<&[u8]>,
) -> Option<RunError> {
    roots(alloc, review, namespace, params).err()
}

/// The review of an object with this text.
fn review_of(alloc: Global, object: &[u8]) -> Result<Vec<u8>, AllocError> {
    let mut review = Vec::from_slice(alloc, HEAD)?;
    review.extend_from_slice(object)?;
    review.extend_from_slice(TAIL)?;
    Ok(review)
}

/// Objects of reviews, and their errors if they are refused.
const OBJECTS: [(&[u8], Option<RunError>); 5] = [
    (b"{}", None),
    (b"null", None),
    (b"{\"spec\":{\"replicas\":1.5}}", Some(ReviewRefused)),
    (b"1", Some(ReviewRefused)),
    (b"{", Some(ReviewRefused)),
];

#[test]
fn refuses_reviews(rt: HostRuntime) -> Result<(), Fail> {
    for &(object, cause) in OBJECTS.iter() {
        let review = review_of(rt.alloc(), object)?;
        assert!(rt;
            refusal(rt.alloc(), Some(&review), None, None) == cause,
            "{object:?}"
        );
    }
    Ok(())
}

/// Documents other than the review, and their errors if they are refused.
const OTHERS: [(&[u8], Option<RunError>); 4] = [
    (b"{}", None),
    (b"1", Some(NamespaceOrParamsRefused)),
    (b"{\"a\":-0}", Some(NamespaceOrParamsRefused)),
    (b"\xff", Some(NamespaceOrParamsRefused)),
];

#[test]
fn refuses_namespaces_and_params(rt: HostRuntime) -> Result<(), Fail> {
    for &(other, cause) in OTHERS.iter() {
        let namespace = refusal(rt.alloc(), Some(REVIEW), Some(other), None);
        let params = refusal(rt.alloc(), None, None, Some(other));
        assert!(rt; namespace == cause && params == cause, "{other:?}");
    }
    assert!(rt; refusal(rt.alloc(), Some(b"{}"), Some(b"1"), None) == Some(ReviewRefused));
    Ok(())
}

/// Lists nested to this depth, in an object.
fn nested(alloc: Global, depth: usize) -> Result<Vec<u8>, AllocError> {
    let mut object = Vec::from_slice(alloc, b"{\"a\":")?;
    for _ in 0..depth {
        object.push(b'[')?;
    }
    for _ in 0..depth {
        object.push(b']')?;
    }
    object.push(b'}')?;
    Ok(object)
}

/// The object is three levels deep in the review; at most 127 levels are read.
#[test]
fn refuses_deep_reviews(rt: HostRuntime) -> Result<(), Fail> {
    for (depth, cause) in [
        (124, None),
        (125, Some(ReviewRefused)),
        (200, Some(ReviewRefused)),
    ] {
        let review = review_of(rt.alloc(), &nested(rt.alloc(), depth)?)?;
        assert!(rt;
            refusal(rt.alloc(), Some(&review), None, None) == cause,
            "{depth} levels"
        );
    }
    Ok(())
}

/// An object with a text of as many bytes as may be charged.
#[test]
fn refuses_large_reviews(rt: HostRuntime) -> Result<(), Fail> {
    let mut object = Vec::from_slice(rt.alloc(), b"{\"a\":\"")?;
    for _ in 0..CHARGE_LIMIT {
        object.push(b'a')?;
    }
    object.extend_from_slice(b"\"}")?;
    let review = review_of(rt.alloc(), &object)?;
    assert!(rt; refusal(rt.alloc(), Some(&review), None, None) == Some(ReviewRefused));
    Ok(())
}
