//! Sessions with the programs of policies.

use super::files::Documents;
use super::{FIVE, MOST, THREE, TOLD, compiled, policy_of, review_of};
use debugger::Counting;
use review_runner::{DocumentNames, debug};
use std::alloc::Global;
use std::test::Fail;

/// The replies of a session to these lines, with the image of the policy with this
/// specification, on the review of this object.
fn said(alloc: Global, spec: &str, object: &str, lines: &[u8]) -> Result<String, Fail> {
    let policy = policy_of(alloc, spec)?;
    let review = review_of(alloc, object)?;
    let mut documents = Documents::new(alloc, &policy, &review);
    compiled(alloc, &mut documents)?;
    let names = DocumentNames {
        review: Some(String::from_str(alloc, "r.json")?),
        namespace: None,
        params: None,
    };
    let mut written = [0u8; 256];
    debug(
        alloc,
        "a.img",
        &names,
        &mut documents,
        &mut Counting::new(lines),
        &mut Counting::new(&mut written[..]),
    )?;
    let text = str::from_utf8(&written)?;
    Ok(String::from_str(alloc, text.trim_end_matches('\0'))?)
}

const ERROR_IGNORED: &str =
    r#"{"failurePolicy":"Ignore","validations":[{"expression":"true && 1/0 == 1"}]}"#;

const UNDECIDED: &str =
    r#"{"matchConditions":[{"name":"a","expression":"1/0 == 1"}],"validations":[{"expression":"false"}]}"#;

/// A policy's specification, the object under review, and the end of the replies, from the
/// outcome with which the program exits on.
#[rattlefmt::skip]
const DECISIONS: [(&str, &str, &str); 4] = [
    (MOST, FIVE, " exited 0x0000000000000003\nverdict 3 1\nvalidation 0 1\n"),
    (MOST, THREE, " exited 0x0000000000000004\nverdict 4 0\n"),
    (ERROR_IGNORED, "{}", " exited 0x0000000000000004\nverdict 4 0\nvalidation 0 2\n"),
    (UNDECIDED, "{}", " exited 0x0000000000000002\nverdict 2 0\n"),
];

#[test]
fn shows_decisions(rt: HostRuntime) -> Result<(), Fail> {
    for (row, &(spec, object, end)) in DECISIONS.iter().enumerate() {
        let answers = said(rt.alloc(), spec, object, b"w\nc 1000000\nw\n")?;
        assert!(rt; answers.starts_with("verdict 0 0\nstep "), "row {row}");
        assert!(rt; answers.ends_with(end), "row {row}");
    }
    Ok(())
}

/// The word of a message is the reference of its text among the values.
#[test]
fn shows_where_a_message_stands(rt: HostRuntime) -> Result<(), Fail> {
    let words = said(rt.alloc(), TOLD, FIVE, b"c 1000000\nw\n")?;
    let Some((before, word)) = words.trim_end().rsplit_once(' ') else {
        return Err("no words")?;
    };
    assert!(rt; before.ends_with("\nverdict 3 1\nvalidation 0 1\nmessage 0"));
    let lines = format!(in rt.alloc(); "c 1000000\nv {word}\n")?;
    let value = said(rt.alloc(), TOLD, FIVE, lines.as_bytes())?;
    let end = format!(in rt.alloc(); "\nvalue {word} \"replicas 5 above 3\"\n")?;
    assert!(rt; value.ends_with(end.as_str()));
    Ok(())
}
