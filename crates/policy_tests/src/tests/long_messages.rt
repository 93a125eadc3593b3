//! Responses with messages of many bytes.

use policy_glue::{Reason, Rejection, into_response_text, response_text};
use std::alloc::{AllocError, Global};

/// Nine bytes of a message, some of which JSON escapes.
const PART: &str = "a\"b\\c\n\u{1}é";

/// The same bytes in a JSON text (RFC 8259, section 7).
const QUOTED: &str = r#"a\"b\\c\n\u0001é"#;

const START: &str =
    r#"{"apiVersion":"admission.k8s.io/v1","kind":"AdmissionReview","response":{"allowed":false,"status":{"code":422,"message":""#;

const END: &str = r#"","reason":"Invalid"},"uid":"u1"}}"#;

/// The rejection with a message of that many parts.
fn rejection(alloc: Global, parts: usize) -> Result<Rejection, AllocError> {
    let message = PART.repeat(alloc, parts)?;
    Ok(Rejection {
        message,
        reason: Reason::Invalid,
    })
}

/// The response that denies with it.
fn wanted(alloc: Global, parts: usize) -> Result<String, AllocError> {
    let message = QUOTED.repeat(alloc, parts)?;
    [START, message.as_str(), END].join(alloc, "")
}

/// Whether the response that denies with the rejection is this text, both if it is moved and if it is copied.
fn is_quoted(
    alloc: Global,
    moved: Result<Rejection, AllocError>,
    copied: Result<Rejection, AllocError>,
    wanted: Result<String, AllocError>,
) -> Result<bool, AllocError> {
    let moved = moved?;
    let copied = copied?;
    let wanted = wanted?;
    Ok(
        is_text(
            into_response_text(alloc, Some(moved), "u1"),
            wanted.as_str(),
        ) && is_text(response_text(alloc, &Some(copied), "u1"), wanted.as_str()),
    )
}

/// Whether there was memory for these bytes, and they are this text.
fn is_text(bytes: Result<Vec<u8>, AllocError>, text: &str) -> bool {
    match bytes {
        Ok(bytes) => bytes.as_slice() == text.as_bytes(),
        Err(_) => false,
    }
}

/// Whether a message of this many parts is quoted.
fn parts_are_quoted(alloc: Global, n: usize) -> Result<bool, AllocError> {
    is_quoted(
        alloc,
        rejection(alloc, n),
        rejection(alloc, n),
        wanted(alloc, n),
    )
}

#[test]
fn long_messages_are_quoted(rt: HostRuntime) {
    // 65,529, 65,538 and 180,000 bytes
    for parts in [7_281, 7_282, 20_000] {
        assert!(rt;
            parts_are_quoted(rt.alloc(), parts) == Ok(true),
            "{parts} parts"
        );
    }
}
