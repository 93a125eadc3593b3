//! The gatekeeper with `--verbose`, with files and streams in memory.

use super::doubles::Policies;
use super::programs::{is_text, words};
use debugger::Counting;
use gatekeeper_runner::exit_code;
use std::alloc::{AllocError, Global};
use std::process::ExitCode;
use std::test::Fail;
use streams::Buffered;

const TOLD: &str = "gatekeeper --policy few --verbose";

/// A review of 1.5 replicas, an empty line, a document that is not a review, a review of 2 replicas, and
/// one that is not JSON, in a line without a line feed.
const LINES: &str =
    r#"{"apiVersion":"admission.k8s.io/v1","kind":"AdmissionReview","request":{"uid":"u1","object":{"spec":{"replicas":1.5}}}}

{"kind":"Scale","request":{"uid":"u3"}}
{"apiVersion":"admission.k8s.io/v1","kind":"AdmissionReview","request":{"uid":"u4","object":{"spec":{"replicas":2}}}}
no"#;

const ANSWERS: &str = r#"{"refused":"N2","uid":"u1"}
{"refused":"N2","uid":"u3"}
{"apiVersion":"admission.k8s.io/v1","kind":"AdmissionReview","response":{"allowed":true,"uid":"u4"}}
{"refused":"N2"}
"#;

const REFUSALS: &str = r#"celbpf: line 1: {"refused":"N2","uid":"u1"}
celbpf: line 3: {"refused":"N2","uid":"u3"}
celbpf: line 5: {"refused":"N2"}
"#;

/// What is reported before each answer that cannot be written whole, and then on the write that failed.
const TOLD_BEFORE: [&str; 3] = [
    "celbpf: S2\n",
    r#"celbpf: line 1: {"refused":"N2","uid":"u1"}
celbpf: S2
"#,
    r#"celbpf: line 1: {"refused":"N2","uid":"u1"}
celbpf: line 3: {"refused":"N2","uid":"u3"}
celbpf: S2
"#,
];

/// The words, the input, the status and both outputs.
#[rattlefmt::skip]
const ROWS: [(&str, &str, u8, &str, &str); 8] = [
    (TOLD, LINES, 0, ANSWERS, REFUSALS),
    ("gatekeeper --policy few", LINES, 0, ANSWERS, ""),
    ("gatekeeper --verbose --policy few --max-line 1", "\n\nabc\n\n", 0, "{\"refused\":\"N2\"}\n", "celbpf: line 3: {\"refused\":\"N2\"}\n"),
    (TOLD, "\n \n", 0, "", ""),
    ("gatekeeper --verbose --policy few --status", LINES, 1, ANSWERS, REFUSALS),
    ("gatekeeper --verbose --policy few --status", "\n \n", 0, "", ""),
    ("gatekeeper --policy few --verbose yes", LINES, 2, "", "celbpf: U1\n"),
    ("gatekeeper --policy missing --verbose", LINES, 3, "", "celbpf: missing: not found\n"),
];

/// Whether the program ends with this status and both outputs, if standard output and standard error have
/// these capacities in bytes.
fn ends(
    alloc: Global,
    line: &str,
    input: &str,
    rooms: (usize, usize),
    due: (u8, &[u8], &[u8]),
) -> Result<bool, AllocError> {
    let mut out = [0u8; 512];
    let mut err = [0u8; 256];
    let (answers, _) = out.split_at_mut(rooms.0.min(512));
    let (refusals, _) = err.split_at_mut(rooms.1.min(256));
    let code = exit_code(
        alloc,
        Ok(words(alloc, line)?),
        &mut Policies,
        &mut Buffered::<_, 7>::new(Counting::new(input.as_bytes())),
        &mut Counting::new(&mut *answers),
        &mut Counting::new(&mut *refusals),
    );
    Ok(code == ExitCode::from(due.0) && is_text(&out, due.1) && is_text(&err, due.2))
}

#[test]
fn tells_of_refused_lines(rt: HostRuntime) -> Result<(), Fail> {
    for (row, &(line, input, status, out, err)) in ROWS.iter().enumerate() {
        let due = (status, out.as_bytes(), err.as_bytes());
        assert!(rt;
            ends(rt.alloc(), line, input, (512, 256), due)?,
            "row {row}"
        );
    }
    Ok(())
}

#[test]
fn answers_where_telling_fails(rt: HostRuntime) -> Result<(), Fail> {
    let refusals = REFUSALS.as_bytes();
    for room in 0..refusals.len() {
        let due = (0, ANSWERS.as_bytes(), &refusals[..room]);
        assert!(rt;
            ends(rt.alloc(), TOLD, LINES, (512, room), due)?,
            "room for {room}"
        );
    }
    Ok(())
}

#[test]
fn tells_before_a_failed_write(rt: HostRuntime) -> Result<(), Fail> {
    let answers = ANSWERS.as_bytes();
    for room in 0..answers.len() {
        // the first two answers have 28 bytes each
        let told = TOLD_BEFORE[(room / 28).min(2)].as_bytes();
        let due = (3, &answers[..room], told);
        assert!(rt;
            ends(rt.alloc(), TOLD, LINES, (room, 256), due)?,
            "room for {room}"
        );
    }
    Ok(())
}
