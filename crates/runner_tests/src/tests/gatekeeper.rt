//! The whole gatekeeper, with files and streams in memory.

use super::doubles::{CutShort, Policies};
use super::programs::{is_text, words};
use super::refusal_line;
use debugger::Counting;
use gatekeeper_runner::exit_code;
use std::alloc::{AllocError, Global};
use std::process::ExitCode;
use std::test::Fail;
use streams::{Buffered, LineSource};

const FEW: &str = "gatekeeper --policy few";

const FEW_WITH_STATUS: &str = "gatekeeper --policy few --status";

const NO_POLICY: &str = "gatekeeper --policy missing --policy none";

const NO_NAMESPACE: &str = "gatekeeper --policy few --namespace missing";

/// Reviews of 3 and of 5 replicas.
const TWO: &str =
    r#"{"apiVersion":"admission.k8s.io/v1","kind":"AdmissionReview","request":{"uid":"u1","object":{"spec":{"replicas":3}}}}
{"apiVersion":"admission.k8s.io/v1","kind":"AdmissionReview","request":{"uid":"u2","object":{"spec":{"replicas":5}}}}
"#;

/// The first of them.
const ONE: &str =
    r#"{"apiVersion":"admission.k8s.io/v1","kind":"AdmissionReview","request":{"uid":"u1","object":{"spec":{"replicas":3}}}}
"#;

/// The answers of `few` to the first of them, and to both.
const ONE_ANSWER: &str =
    r#"{"apiVersion":"admission.k8s.io/v1","kind":"AdmissionReview","response":{"allowed":true,"uid":"u1"}}
"#;

const TWO_ANSWERS: &str =
    r#"{"apiVersion":"admission.k8s.io/v1","kind":"AdmissionReview","response":{"allowed":true,"uid":"u1"}}
{"apiVersion":"admission.k8s.io/v1","kind":"AdmissionReview","response":{"allowed":false,"status":{"code":422,"message":"failed expression: object.spec.replicas <= 3","reason":"Invalid"},"uid":"u2"}}
"#;

/// The answers of `optional` to both: a message has the text of the policy's author.
const OPTIONAL_ANSWERS: &str =
    r#"{"apiVersion":"admission.k8s.io/v1","kind":"AdmissionReview","response":{"allowed":true,"uid":"u1"}}
{"apiVersion":"admission.k8s.io/v1","kind":"AdmissionReview","response":{"allowed":false,"status":{"code":422,"message":"failed expression: object.spec.?replicas.orValue(1) <= 3","reason":"Invalid"},"uid":"u2"}}
"#;

/// The translations of `few`, `optional` and `untold`, and of `true` alone; the last two without message expressions.
const FEW_TRANSLATED: &str =
    r#"{"apiVersion":"admissionregistration.k8s.io/v1","kind":"ValidatingAdmissionPolicy","metadata":{"annotations":{"validation.0":"object.spec.replicas <= 3"}},"spec":{"failurePolicy":"Fail","validations":[{"expression":"(object.spec.replicas <= 3)","reason":"Invalid"}]}}
"#;

const OPTIONAL_TRANSLATED: &str =
    r#"{"apiVersion":"admissionregistration.k8s.io/v1","kind":"ValidatingAdmissionPolicy","metadata":{"annotations":{"validation.0":"object.spec.?replicas.orValue(1) <= 3"}},"spec":{"failurePolicy":"Fail","validations":[{"expression":"((((object.spec != null) && has(object.spec.replicas)) ? object.spec.replicas : 1) <= 3)","reason":"Invalid"}]}}
"#;

const UNTOLD_TRANSLATED: &str =
    r#"{"apiVersion":"admissionregistration.k8s.io/v1","kind":"ValidatingAdmissionPolicy","metadata":{"annotations":{"variable.0":"object.?a","condition.0":"true","validation.0":"false","validation.1":"true","message.1":"'b'"}},"spec":{"failurePolicy":"Ignore","variables":[{"name":"v","expression":"(((object != null) && has(object.a)) ? [object.a] : [])"}],"matchConditions":[{"name":"c","expression":"true"}],"validations":[{"expression":"false","message":"\"no\"","reason":"Forbidden"},{"expression":"true","messageExpression":"\"b\"","reason":"Invalid"}]}}
"#;

const LEAST_TRANSLATED: &str =
    r#"{"apiVersion":"admissionregistration.k8s.io/v1","kind":"ValidatingAdmissionPolicy","metadata":{"annotations":{"validation.0":"true"}},"spec":{"failurePolicy":"Fail","validations":[{"expression":"true","reason":"Invalid"}]}}
"#;

/// The answers of `few` and `slow`, in either order: a request that the first does not deny is not decided by
/// the second, and one that the first denies is denied.
const ONE_REFUSED: &str =
    r#"{"refused":"N4","uid":"u1","policy":"slow-one","failurePolicy":"Ignore"}
{"apiVersion":"admission.k8s.io/v1","kind":"AdmissionReview","response":{"allowed":false,"status":{"code":422,"message":"failed expression: object.spec.replicas <= 3","reason":"Invalid"},"uid":"u2"}}
"#;

/// The answers if each policy needs more steps than it may take, and `few` is one of them. It is under Fail.
const BOTH_REFUSED: &str = r#"{"refused":"N4","uid":"u1","policy":"few","failurePolicy":"Fail"}
{"refused":"N4","uid":"u2","policy":"few","failurePolicy":"Fail"}
"#;

/// The answers if all policies that need more steps are under Ignore.
const IGNORE_REFUSED: &str =
    r#"{"refused":"N4","uid":"u1","policy":"slow-one","failurePolicy":"Ignore"}
{"refused":"N4","uid":"u2","policy":"slow-one","failurePolicy":"Ignore"}
"#;

/// The answers if each policy may read less than it needs, and `few` is one of them.
const FEW_UNREAD: &str = r#"{"refused":"N7","uid":"u1","policy":"few","failurePolicy":"Fail"}
{"refused":"N7","uid":"u2","policy":"few","failurePolicy":"Fail"}
"#;

/// The answers if `lenient` alone is asked, and may read less than it needs.
const LENIENT_UNREAD: &str =
    r#"{"refused":"N7","uid":"u1","policy":"lenient","failurePolicy":"Ignore"}
{"refused":"N7","uid":"u2","policy":"lenient","failurePolicy":"Ignore"}
"#;

/// The answers of `few` and `even` if `even` may read less than it needs.
const EVEN_UNREAD: &str = r#"{"refused":"N7","uid":"u1","policy":"even","failurePolicy":"Fail"}
{"apiVersion":"admission.k8s.io/v1","kind":"AdmissionReview","response":{"allowed":false,"status":{"code":422,"message":"failed expression: object.spec.replicas <= 3","reason":"Invalid"},"uid":"u2"}}
"#;

/// The answers of `few` and `even`.
const FEW_AND_EVEN: &str =
    r#"{"apiVersion":"admission.k8s.io/v1","kind":"AdmissionReview","response":{"allowed":false,"status":{"code":403,"message":"odd","reason":"Forbidden"},"uid":"u1"}}
{"apiVersion":"admission.k8s.io/v1","kind":"AdmissionReview","response":{"allowed":false,"status":{"code":422,"message":"failed expression: object.spec.replicas <= 3; odd","reason":"Invalid"},"uid":"u2"}}
"#;

/// A review of 1.5 replicas, an empty line, a document that is not a review, one that is not JSON, and a
/// review of 2 replicas in a line without a line feed.
const REST: &str =
    r#"{"apiVersion":"admission.k8s.io/v1","kind":"AdmissionReview","request":{"uid":"u3","object":{"spec":{"replicas":1.5}}}}

{"kind":"Scale","request":{"uid":"u4"}}
no
{"apiVersion":"admission.k8s.io/v1","kind":"AdmissionReview","request":{"uid":"u5","object":{"spec":{"replicas":2}}}}"#;

/// Decisions: the words, the input, the status, standard output and the refusal.
#[rattlefmt::skip]
const DECISIONS: [(&str, &str, u8, &str, &str); 22] = [
    (FEW, TWO, 0, TWO_ANSWERS, ""),
    (
        FEW,
        REST,
        0,
        r#"{"refused":"N2","uid":"u3"}
{"refused":"N2","uid":"u4"}
{"refused":"N2"}
{"apiVersion":"admission.k8s.io/v1","kind":"AdmissionReview","response":{"allowed":true,"uid":"u5"}}
"#,
        "",
    ),
    ("gatekeeper --policy few --policy even", TWO, 0, FEW_AND_EVEN, ""),
    (
        "gatekeeper --policy even --policy few",
        TWO,
        0,
        r#"{"apiVersion":"admission.k8s.io/v1","kind":"AdmissionReview","response":{"allowed":false,"status":{"code":403,"message":"odd","reason":"Forbidden"},"uid":"u1"}}
{"apiVersion":"admission.k8s.io/v1","kind":"AdmissionReview","response":{"allowed":false,"status":{"code":403,"message":"odd; failed expression: object.spec.replicas <= 3","reason":"Forbidden"},"uid":"u2"}}
"#,
        "",
    ),
    ("gatekeeper --policy few --policy even --steps 1", TWO, 0, BOTH_REFUSED, ""),
    ("gatekeeper --policy few --policy slow --steps 1", TWO, 0, BOTH_REFUSED, ""),
    ("gatekeeper --policy slow --policy few --policy even --steps 1", TWO, 0, BOTH_REFUSED, ""),
    ("gatekeeper --policy slow --policy slow --steps 1", TWO, 0, IGNORE_REFUSED, ""),
    // `few` reads the keys `spec` and `replicas`, each in a map of one entry: 4 * 1 + 8 * 1; `even` one byte more, since
    // it compares two digits. Each has the limit for itself
    ("gatekeeper --policy few --profile --reads 11", TWO, 0, FEW_UNREAD, ""),
    ("gatekeeper --policy few --profile --reads 12", TWO, 0, TWO_ANSWERS, ""),
    ("gatekeeper --policy few --policy even --profile --reads 12", TWO, 0, EVEN_UNREAD, ""),
    ("gatekeeper --policy even --policy few --profile --reads 12", TWO, 0, EVEN_UNREAD, ""),
    ("gatekeeper --policy few --policy even --profile --reads 13", TWO, 0, FEW_AND_EVEN, ""),
    ("gatekeeper --policy lenient --policy few --reads 0", TWO, 0, FEW_UNREAD, ""),
    ("gatekeeper --policy few --policy lenient --reads 0", TWO, 0, FEW_UNREAD, ""),
    ("gatekeeper --policy lenient --reads 0", TWO, 0, LENIENT_UNREAD, ""),
    ("gatekeeper --policy few --reads 4611686018427387904", TWO, 0, TWO_ANSWERS, ""),
    ("gatekeeper --policy few --reads 4611686018427387905", TWO, 2, "", "U1"),
    (
        "gatekeeper --policy deep",
        TWO,
        0,
        r#"{"refused":"N5","uid":"u1","policy":"p","failurePolicy":"Fail"}
{"refused":"N5","uid":"u2","policy":"p","failurePolicy":"Fail"}
"#,
        "",
    ),
    ("gatekeeper --policy slow --policy few --steps 1000", TWO, 0, ONE_REFUSED, ""),
    ("gatekeeper --policy few --policy slow --steps 1000", TWO, 0, ONE_REFUSED, ""),
    ("gatekeeper --params none --policy few", TWO, 0, "{\"refused\":\"N3\",\"uid\":\"u1\"}\n{\"refused\":\"N3\",\"uid\":\"u2\"}\n", ""),
];

/// Words and files that are taken or refused.
#[rattlefmt::skip]
const STARTS: [(&str, &str, u8, &str, &str); 29] = [
    ("gatekeeper --policy few --policy none", TWO, 3, "", "none: K1"),
    (NO_POLICY, TWO, 3, "", "missing: not found"),
    (NO_NAMESPACE, TWO, 3, "", "missing: not found"),
    ("gatekeeper --policy bytes --policy none", TWO, 3, "", "bytes: K6 validation 0 W1 at 12"),
    ("gatekeeper --policy none --policy bytes", TWO, 3, "", "none: K1"),
    ("gatekeeper --policy few --namespace none --params missing", TWO, 3, "", "missing: not found"),
    ("gatekeeper", TWO, 2, "", "U1"),
    (FEW, " \t\r\n\r\n  \n\t", 0, "", ""),
    // each line of TWO has 117 bytes
    ("gatekeeper --policy few --max-line 117", TWO, 0, TWO_ANSWERS, ""),
    ("gatekeeper --policy few --max-line 116", TWO, 0, "{\"refused\":\"N2\"}\n{\"refused\":\"N2\"}\n", ""),
    ("gatekeeper --policy few --max-line 1", " \n  \nab\n", 0, "{\"refused\":\"N2\"}\n{\"refused\":\"N2\"}\n", ""),
    ("gatekeeper --policy few --max-line 0", TWO, 2, "", "U1"),
    ("gatekeeper --policy few --max-line 16777217", TWO, 2, "", "U1"),
    (FEW_WITH_STATUS, ONE, 0, ONE_ANSWER, ""),
    (FEW_WITH_STATUS, TWO, 1, TWO_ANSWERS, ""),
    (FEW_WITH_STATUS, " \t\r\n\r\n  \n\t", 0, "", ""),
    ("gatekeeper --status --policy few --max-line 1", "ab\n", 1, "{\"refused\":\"N2\"}\n", ""),
    ("gatekeeper --policy none --status", TWO, 3, "", "none: K1"),
    ("gatekeeper --policy few --profile", TWO, 0, TWO_ANSWERS, ""),
    ("gatekeeper --policy optional", TWO, 0, OPTIONAL_ANSWERS, ""),
    ("gatekeeper --policy optional --profile", TWO, 3, "", "optional: K2"),
    ("gatekeeper --policy unknown", TWO, 3, "", "unknown: K6 validation 1 W5 url"),
    ("gatekeeper --policy unknown --profile", TWO, 3, "", "unknown: K6 validation 1 Y2"),
    ("gatekeeper --policy few --policy no-value", TWO, 3, "", "no-value: K6 validation 0 W4"),
    ("gatekeeper --policy bytes", TWO, 3, "", "bytes: K6 validation 0 W1 at 12"),
    ("gatekeeper --policy few --policy none --profile", TWO, 3, "", "none: K1"),
    ("gatekeeper --policy few --leave-messages", TWO, 2, "", "U1"),
    ("gatekeeper --policy few --profile --profile", TWO, 2, "", "U1"),
    ("gatekeeper --version --policy missing", TWO, 0, "gatekeeper 0.20261201\n", ""),
];

/// Translations.
#[rattlefmt::skip]
const TRANSLATIONS: [(&str, &str, u8, &str, &str); 15] = [
    ("gatekeeper --translate few", TWO, 0, FEW_TRANSLATED, ""),
    ("gatekeeper --translate=optional", TWO, 0, OPTIONAL_TRANSLATED, ""),
    ("gatekeeper --leave-messages --translate optional", TWO, 0, OPTIONAL_TRANSLATED, ""),
    ("gatekeeper --translate untold", TWO, 3, "", "untold: K6 message 0 W5 url"),
    ("gatekeeper --policy untold", TWO, 3, "", "untold: K6 message 0 W5 url"),
    ("gatekeeper --translate unknown", TWO, 3, "", "unknown: K6 validation 1 W5 url"),
    ("gatekeeper --translate no-value --leave-messages", TWO, 3, "", "no-value: K6 validation 0 W4"),
    ("gatekeeper --translate none", TWO, 3, "", "none: K1"),
    ("gatekeeper --translate missing", TWO, 3, "", "missing: not found"),
    ("gatekeeper --translate", TWO, 2, "", "U1"),
    ("gatekeeper --translate few --policy few", TWO, 2, "", "U1"),
    ("gatekeeper --policy few --translate few", TWO, 2, "", "U1"),
    ("gatekeeper --translate few --translate few", TWO, 2, "", "U1"),
    ("gatekeeper --translate few --profile", TWO, 2, "", "U1"),
    ("gatekeeper --translate few --max-line 16777216", TWO, 2, "", "U1"),
];

/// Deep expressions.
#[rattlefmt::skip]
const DEPTHS: [(&str, &str, u8, &str, &str); 10] = [
    // an expression of more than 512 levels is too deep in the wide language; that of the profile has too many nodes
    ("gatekeeper --policy 513-selections", TWO, 3, "", "513-selections: K6 validation 0 W10"),
    ("gatekeeper --policy 513-selections --profile", TWO, 3, "", "513-selections: G3"),
    ("gatekeeper --policy 2048-selections", TWO, 3, "", "2048-selections: K6 validation 0 W10"),
    ("gatekeeper --translate 2048-selections", TWO, 3, "", "2048-selections: K6 validation 0 W10"),
    ("gatekeeper --policy 513-sums", TWO, 3, "", "513-sums: K6 validation 0 W10"),
    ("gatekeeper --policy 513-indexes", TWO, 3, "", "513-indexes: K6 validation 0 W10"),
    // before a name that is unknown, after a macro or a token that is refused
    ("gatekeeper --policy 513-unknown", TWO, 3, "", "513-unknown: K6 validation 0 W10"),
    ("gatekeeper --policy 513-has", TWO, 3, "", "513-has: K6 validation 0 M3"),
    ("gatekeeper --policy 513-bytes", TWO, 3, "", "513-bytes: K6 validation 0 W1 at 0"),
    ("gatekeeper --policy 513-message", TWO, 3, "", "513-message: K6 message 0 W10"),
];

/// Whether the program with these words and this input ends with this status and both
/// outputs, if standard output has this capacity.
fn ends<R: LineSource>(
    alloc: Global,
    line: &str,
    input: &mut R,
    room: usize,
    due: (u8, &[u8], &str),
) -> Result<bool, AllocError> {
    let mut out = [0u8; 1024];
    let mut err = [0u8; 64];
    let (front, _) = out.split_at_mut(room.min(1024));
    let code = exit_code(
        alloc,
        Ok(words(alloc, line)?),
        &mut Policies,
        input,
        &mut Counting::new(&mut *front),
        &mut Counting::new(&mut err[..]),
    );
    Ok(code == ExitCode::from(due.0) && is_text(&out, due.1) && is_text(&err, due.2.as_bytes()))
}

/// The first of these rows that the program does not answer as due, if it reads a byte, seven bytes or all at a time.
fn first_failure(
    alloc: Global,
    rows: &[(&str, &str, u8, &str, &str)],
) -> Result<Option<usize>, AllocError> {
    for (row, &(line, input, status, out, refusal)) in rows.iter().enumerate() {
        let input = input.as_bytes();
        let err = refusal_line(alloc, refusal)?;
        let due = (status, out.as_bytes(), err.as_str());
        let mut byte = Buffered::<_, 1>::new(Counting::new(input));
        let mut few = Buffered::<_, 7>::new(Counting::new(input));
        let mut all = Buffered::<_, 1024>::new(Counting::new(input));
        let holds = ends(alloc, line, &mut byte, 1024, due)?
            && ends(alloc, line, &mut few, 1024, due)?
            && ends(alloc, line, &mut all, 1024, due)?;
        if !holds {
            return Ok(Some(row));
        }
    }
    Ok(None)
}

#[test]
fn answers_each_line(rt: HostRuntime) -> Result<(), Fail> {
    assert_eq!(rt; first_failure(rt.alloc(), &DECISIONS)?, None);
    Ok(())
}

#[test]
fn starts_or_refuses(rt: HostRuntime) -> Result<(), Fail> {
    assert_eq!(rt; first_failure(rt.alloc(), &STARTS)?, None);
    Ok(())
}

#[test]
fn translates_policies(rt: HostRuntime) -> Result<(), Fail> {
    assert_eq!(rt; first_failure(rt.alloc(), &TRANSLATIONS)?, None);
    Ok(())
}

#[test]
fn refuses_deep_expressions(rt: HostRuntime) -> Result<(), Fail> {
    assert_eq!(rt; first_failure(rt.alloc(), &DEPTHS)?, None);
    Ok(())
}

#[test]
fn ends_where_a_read_fails(rt: HostRuntime) -> Result<(), Fail> {
    for end in 0..=TWO.len() {
        let words = if end % 2 == 0 { FEW } else { FEW_WITH_STATUS };
        let left = &TWO.as_bytes()[..end];
        let lines = left.iter().filter(|&&b| b == b'\n').count();
        let said = match lines {
            0 => "",
            1 => ONE_ANSWER,
            _ => TWO_ANSWERS,
        };
        let mut input = Buffered::<_, 64>::new(Counting::new(CutShort { left }));
        let due = (3, said.as_bytes(), "celbpf: S1\n");
        assert!(rt;
            ends(rt.alloc(), words, &mut input, 512, due)?,
            "at byte {end}"
        );
    }
    Ok(())
}

#[test]
fn ends_where_a_write_fails(rt: HostRuntime) -> Result<(), Fail> {
    let answers = TWO_ANSWERS.as_bytes();
    for room in 0..answers.len() {
        let words = if room % 2 == 0 { FEW } else { FEW_WITH_STATUS };
        let mut input = Buffered::<_, 64>::new(Counting::new(TWO.as_bytes()));
        let due = (3, &answers[..room], "celbpf: S2\n");
        assert!(rt;
            ends(rt.alloc(), words, &mut input, room, due)?,
            "room for {room}"
        );
    }
    Ok(())
}

#[test]
fn ends_where_a_translation_is_not_written(rt: HostRuntime) -> Result<(), Fail> {
    let text = FEW_TRANSLATED.as_bytes();
    for room in 0..text.len() {
        let mut input = Buffered::<_, 64>::new(Counting::new(TWO.as_bytes()));
        let due = (3, &text[..room], "celbpf: S2\n");
        assert!(rt;
            ends(
                rt.alloc(),
                "gatekeeper --translate few",
                &mut input,
                room,
                due
            )?,
            "room for {room}"
        );
    }
    Ok(())
}

/// The words, standard output and standard error of translations that leave a message expression out.
const LEFT_OUT: [(&str, &str, &str); 2] = [
    (
        "gatekeeper --translate untold --leave-messages",
        UNTOLD_TRANSLATED,
        "gatekeeper: policy untold, left out message 0 W5 url\n",
    ),
    (
        "gatekeeper --translate 513-message --leave-messages",
        LEAST_TRANSLATED,
        "gatekeeper: policy 513-message, left out message 0 W10\n",
    ),
];

#[test]
fn names_what_a_translation_leaves_out(rt: HostRuntime) -> Result<(), Fail> {
    for (line, translated, told) in &LEFT_OUT {
        let mut input = Buffered::<_, 64>::new(Counting::new(TWO.as_bytes()));
        let due = (0, translated.as_bytes(), *told);
        assert!(rt; ends(rt.alloc(), line, &mut input, 1024, due)?, "{line}");
    }
    Ok(())
}
