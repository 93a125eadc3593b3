//! Policies and reviews at the limits.

use super::{ALLOWED, DEFAULT_STEPS, answers, comes_to, is_refused, policy_of, printed, reviewed};
use std::alloc::{AllocError, Global};
use std::test::Fail;

/// A text built of pieces: one between two others, each of which is repeated this
/// often, and the texts before and after all.
type Pieces<'a> = (&'a str, &'a str, usize, &'a str, &'a str, &'a str);

fn text_of(alloc: Global, pieces: Pieces<'_>) -> Result<String, AllocError> {
    let (head, before, n, middle, behind, tail) = pieces;
    let mut text = String::from_str(alloc, head)?;
    text.push_str(before.repeat(alloc, n)?.as_str())?;
    text.push_str(middle)?;
    text.push_str(behind.repeat(alloc, n)?.as_str())?;
    text.push_str(tail)?;
    Ok(text)
}

/// The texts before and after the expression of the only validation of a specification.
const HEAD: &str = r#"{"validations":[{"expression":""#;

const TAIL: &str = r#""}]}"#;

const SUM_TAIL: &str = r#" == 1"}]}"#;

/// The start of a list of validations, one validation, and one that is followed by others.
const LIST: &str = "{\"validations\":[";

const VALIDATION: &str = r#"{"expression":"true"}"#;

const BEFORE: &str = r#"{"expression":"true"},"#;

const KIND_HEAD: &str = r#"{"validations":[{"expression":"true"}],"paramKind":{"a":"#;

/// A policy's specification, and its error. Its first list in `paramKind` is four levels deep
/// in the document; at most 127 levels are read.
#[rattlefmt::skip]
const POLICIES: [(Pieces<'static>, Option<&str>); 11] = [
    ((HEAD, "(", 101, "true", ")", TAIL), Some("K6 validation 0 P5 at 100")),
    ((HEAD, "1+(", 58, "1+1", ")", SUM_TAIL), None),
    ((HEAD, "1+(", 59, "1+1", ")", SUM_TAIL), Some("K6 validation 0 G1")),
    ((HEAD, "true && ", 254, "true", "", TAIL), None),
    ((HEAD, "true && ", 255, "true", "", TAIL), Some("G3")),
    ((HEAD, "!", 4_095, "true", "", TAIL), Some("G3")),
    ((HEAD, "1*", 250, "1", "", SUM_TAIL), None),
    ((LIST, BEFORE, 63, VALIDATION, "", "]}"), None),
    ((LIST, BEFORE, 64, VALIDATION, "", "]}"), Some("K5")),
    ((KIND_HEAD, "[", 124, "", "]", "}}"), None),
    ((KIND_HEAD, "[", 200, "", "]", "}}"), Some("K1")),
];

#[test]
fn compiles_to_the_limits(rt: HostRuntime) -> Result<(), Fail> {
    for (row, &(pieces, refusal)) in POLICIES.iter().enumerate() {
        let spec = text_of(rt.alloc(), pieces)?;
        let policy = policy_of(rt.alloc(), spec.as_str())?;
        assert!(rt; comes_to(rt.alloc(), &policy, refusal)?, "row {row}");
    }
    Ok(())
}

/// A specification with 17 validations, each with a unique text: two digits, followed by 61,998 letters, or by
/// this many in the last one. They share the text `a`.
fn with_texts(alloc: Global, last: usize) -> Result<String, AllocError> {
    let mut spec = String::from_str(alloc, LIST)?;
    for i in 0..17 {
        let comma = if i == 0 { "" } else { "," };
        let letters = "a".repeat(alloc, if i == 16 { last } else { 61_998 })?;
        let validation = format!(in alloc;
            "{comma}{{\"expression\":\"'{:02}{letters}' == 'a'\"}}",
            i
        )?;
        spec.push_str(validation.as_str())?;
    }
    spec.push_str("]}")?;
    Ok(spec)
}

// 16 texts of 62,000 bytes and the one of `a` leave 56,575 bytes of 1,048,576 for the last.
#[test]
fn compiles_many_texts(rt: HostRuntime) -> Result<(), Fail> {
    for (last, refusal) in [(56_573, None), (56_574, Some("G4"))] {
        let spec = with_texts(rt.alloc(), last)?;
        let policy = policy_of(rt.alloc(), spec.as_str())?;
        assert!(rt; comes_to(rt.alloc(), &policy, refusal)?, "{last}");
    }
    Ok(())
}

const HOLDS: &str = r#"{"validations":[{"expression":"true"}]}"#;

const HAS_ONE: &str = r#"{"validations":[{"expression":"object.items.exists(x, x == 1)"}]}"#;

const DOUBLES: &str = r#"{"validations":[{"expression":"object.a + object.a == object.a"}]}"#;

/// A policy's specification, the object under review, the step limit, the status, and the
/// refusal, which is empty if the request is allowed.
#[rattlefmt::skip]
const REVIEWS: [(&str, Pieces<'static>, u64, u8, &str); 3] = [
    (HAS_ONE, ("{\"items\":[1", ",2", 9_999, "", "", "]}"), 1024, 0, ""),
    (DOUBLES, ("{\"a\":\"", "a", 9_000_000, "", "", "\"}"), DEFAULT_STEPS, 4, "celbpf: N5\n"),
    (HOLDS, ("{\"a\":", "[", 200, "", "]", "}"), DEFAULT_STEPS, 3, "celbpf: N2\n"),
];

#[test]
fn reviews_to_the_limits(rt: HostRuntime) -> Result<(), Fail> {
    let allowed = printed(rt.alloc(), ALLOWED)?;
    for (row, &(spec, pieces, steps, status, line)) in REVIEWS.iter().enumerate() {
        let object = text_of(rt.alloc(), pieces)?;
        let done = reviewed(rt.alloc(), spec, object.as_str(), steps)?;
        let is_as_said = if line.is_empty() {
            answers(&done, status, &allowed)
        } else {
            is_refused(&done, status, line)
        };
        assert!(rt; is_as_said, "row {row}");
    }
    Ok(())
}
