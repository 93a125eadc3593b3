//! Definitions that the tests share: documents of policies and reviews, and the outcomes of the program on them.

use files::Documents;
use review_runner::{Done, Order, ReviewNames, perform};
use std::alloc::{AllocError, Global};
use std::test::Fail;

mod decisions;
mod documents;
mod expressions;
mod files;
mod limits;
mod reads;
mod refusals;
mod reviews;
mod roots;
mod seeded;

/// The step limit of a review if no number is given.
pub const DEFAULT_STEPS: u64 = 10_000_000;

/// An object of 5 replicas, and one of 3.
pub const FIVE: &str = r#"{"spec":{"replicas":5}}"#;

pub const THREE: &str = r#"{"spec":{"replicas":3}}"#;

/// The specification that allows at most 3 replicas.
pub const MOST: &str = r#"{"validations":[{"expression":"object.spec.replicas <= 3"}]}"#;

/// The specification `MOST` with a message expression.
pub const TOLD: &str =
    r#"{"validations":[{"expression":"object.spec.replicas <= 3","messageExpression":"'replicas ' + string(object.spec.replicas) + ' above 3'"}]}"#;

/// The response to a request that is allowed.
pub const ALLOWED: &str = r#"{"allowed":true,"uid":"u1"}"#;

/// The document with this text between two others.
fn between(alloc: Global, head: &str, text: &str, tail: &str) -> Result<Vec<u8>, AllocError> {
    let mut document = Vec::from_slice(alloc, head.as_bytes())?;
    document.extend_from_slice(text.as_bytes())?;
    document.extend_from_slice(tail.as_bytes())?;
    Ok(document)
}

/// The policy with this specification.
pub fn policy_of(alloc: Global, spec: &str) -> Result<Vec<u8>, AllocError> {
    between(
        alloc,
        r#"{"apiVersion":"admissionregistration.k8s.io/v1","kind":"ValidatingAdmissionPolicy","spec":"#,
        spec,
        "}",
    )
}

/// The review of this object.
pub fn review_of(alloc: Global, object: &str) -> Result<Vec<u8>, AllocError> {
    between(
        alloc,
        r#"{"apiVersion":"admission.k8s.io/v1","kind":"AdmissionReview","request":{"uid":"u1","object":"#,
        object,
        "}}",
    )
}

/// The program's output with this response.
pub fn printed(alloc: Global, response: &str) -> Result<Vec<u8>, AllocError> {
    between(
        alloc,
        r#"{"apiVersion":"admission.k8s.io/v1","kind":"AdmissionReview","response":"#,
        response,
        "}\n",
    )
}

/// The program's output for a denial with this message, with the default reason.
pub fn printed_denial(alloc: Global, message: &str) -> Result<Vec<u8>, AllocError> {
    between(
        alloc,
        r#"{"apiVersion":"admission.k8s.io/v1","kind":"AdmissionReview","response":{"allowed":false,"status":{"code":422,"message":""#,
        message,
        "\",\"reason\":\"Invalid\"},\"uid\":\"u1\"}}\n",
    )
}

/// The outcome of the review of this object under the policy with this specification.
pub fn reviewed(alloc: Global, spec: &str, object: &str, steps: u64) -> Result<Done, AllocError> {
    let policy = policy_of(alloc, spec)?;
    let review = review_of(alloc, object)?;
    let mut documents = Documents::new(alloc, &policy, &review);
    answered(alloc, &mut documents, steps)
}

/// The outcome of `review` on these documents.
pub fn answered(
    alloc: Global,
    documents: &mut Documents<'_>,
    steps: u64,
) -> Result<Done, AllocError> {
    let files = ReviewNames {
        policy: String::from_str(alloc, "p.json")?,
        review: String::from_str(alloc, "r.json")?,
        namespace: name_given(alloc, "n.json", documents.namespace)?,
        params: name_given(alloc, "a.json", documents.params)?,
    };
    perform(alloc, &Order::Review { files, steps }, documents)
}

/// The name of a document's file, if the document is given.
fn name_given(
    alloc: Global,
    name: &str,
    document: Option<&[u8]>,
) -> Result<Option<String>, AllocError> {
    match document {
        Some(_) => Ok(Some(String::from_str(alloc, name)?)),
        None => Ok(None),
    }
}

/// The outcome of `compile` on the policy of these documents.
pub fn compiled(alloc: Global, documents: &mut Documents<'_>) -> Result<Done, AllocError> {
    let order = Order::Compile {
        policy: String::from_str(alloc, "p.json")?,
        image: String::from_str(alloc, "a.img")?,
    };
    perform(alloc, &order, documents)
}

/// Whether this was printed, with this status, and no refusal.
pub fn answers(done: &Done, status: u8, printed: &[u8]) -> bool {
    done.status == status && done.err.is_empty() && done.out.as_slice() == printed
}

/// Whether there is only this line of standard error, and this status.
pub fn is_refused(done: &Done, status: u8, line: &str) -> bool {
    done.status == status && done.out.is_empty() && done.err.as_slice() == line.as_bytes()
}

/// Whether the policy is compiled if no refusal is given, or else is refused with it by
/// `compile`, and by `review` with `N1` before it.
pub fn comes_to(alloc: Global, policy: &[u8], refusal: Option<&str>) -> Result<bool, Fail> {
    let mut documents = Documents::new(alloc, policy, b"");
    let done = compiled(alloc, &mut documents)?;
    let Some(refusal) = refusal else {
        return Ok(answers(&done, 0, b"") && documents.image.len() > 16);
    };
    let line = format!(in alloc; "celbpf: {refusal}\n")?;
    if !is_refused(&done, 3, line.as_str()) || !documents.image.is_empty() {
        return Ok(false);
    }
    let line = format!(in alloc; "celbpf: N1 {refusal}\n")?;
    let done = answered(alloc, &mut documents, DEFAULT_STEPS)?;
    Ok(is_refused(&done, 3, line.as_str()))
}
