//! Expressions as the only validation of a policy, under both failure policies.

use super::{ALLOWED, DEFAULT_STEPS, answers, printed, printed_denial, reviewed};
use std::alloc::Global;
use std::test::Fail;

/// An expression, the object under review, and the statuses under `Fail` and under `Ignore`: true is allowed under
/// both, false is denied under both, and an error is denied only under the first.
const EXPRESSIONS: [(&str, &str, u8, u8); 13] = [
    ("1/0 == 1 || true", "{}", 0, 0),
    ("true && 1/0 == 1", "{}", 1, 0),
    ("[0,2].exists(x, 4/x == 2)", "{}", 0, 0),
    ("[0,2].exists_one(x, 4/x == 2)", "{}", 1, 0),
    ("[].all(x, x)", "{}", 0, 0),
    ("-9223372036854775808 < 0", "{}", 0, 0),
    ("9223372036854775807 + 1 == 0", "{}", 1, 0),
    ("-9223372036854775808 / -1 == 0", "{}", 1, 0),
    ("size('é') == 1", "{}", 0, 0),
    ("object.spec.on && true", "{\"spec\":{\"on\":true}}", 0, 0),
    ("object.spec.on && true", "{\"spec\":{\"on\":false}}", 1, 1),
    ("object.spec.on && true", "{\"spec\":{\"on\":1}}", 1, 0),
    ("object.spec.on && true", "{}", 1, 0),
];

/// Whether the policy with this validation and failure policy ends with this status.
fn ends(
    alloc: Global,
    expression: &str,
    failure: &str,
    object: &str,
    status: u8,
) -> Result<bool, Fail> {
    let spec = format!(in alloc;
        "{{\"failurePolicy\":\"{failure}\",\"validations\":[{{\"expression\":\"{expression}\"}}]}}"
    )?;
    let done = reviewed(alloc, spec.as_str(), object, DEFAULT_STEPS)?;
    let wanted = if status == 0 {
        printed(alloc, ALLOWED)?
    } else {
        let message = format!(in alloc; "failed expression: {expression}")?;
        printed_denial(alloc, message.as_str())?
    };
    Ok(answers(&done, status, &wanted))
}

#[test]
fn answers_by_expressions(rt: HostRuntime) -> Result<(), Fail> {
    for &(expression, object, fail, ignore) in EXPRESSIONS.iter() {
        for (failure, status) in [("Fail", fail), ("Ignore", ignore)] {
            assert!(rt;
                ends(rt.alloc(), expression, failure, object, status)?,
                "{expression}"
            );
        }
    }
    Ok(())
}
