//! Reviews under policies.

use super::{
    ALLOWED, DEFAULT_STEPS, FIVE, MOST, THREE, TOLD, answers, is_refused, printed, reviewed,
};
use std::test::Fail;

const MOST_DENIED: &str =
    r#"{"allowed":false,"status":{"code":422,"message":"failed expression: object.spec.replicas <= 3","reason":"Invalid"},"uid":"u1"}"#;

const FALSE_AND_ERROR: &str =
    r#"{"matchConditions":[{"name":"a","expression":"1/0 == 1"},{"name":"b","expression":"false"}],"validations":[{"expression":"false"}]}"#;

const ERROR_AND_TRUE: &str =
    r#"{"matchConditions":[{"name":"a","expression":"1/0 == 1"},{"name":"b","expression":"true"}],"validations":[{"expression":"true"}]}"#;

const UNDECIDED: &str =
    r#"{"allowed":false,"status":{"code":422,"message":"match conditions not decided","reason":"Invalid"},"uid":"u1"}"#;

const ERROR_IGNORED: &str =
    r#"{"failurePolicy":"Ignore","matchConditions":[{"name":"a","expression":"1/0 == 1"},{"name":"b","expression":"true"}],"validations":[{"expression":"false"}]}"#;

const UNUSED_ERROR: &str =
    r#"{"variables":[{"name":"v","expression":"1/0"}],"validations":[{"expression":"true"}]}"#;

const VARIABLE_IGNORED: &str =
    r#"{"failurePolicy":"Ignore","variables":[{"name":"v","expression":"1/0"}],"validations":[{"expression":"variables.v == 1"},{"expression":"false"}]}"#;

const FALSE_DENIED: &str =
    r#"{"allowed":false,"status":{"code":422,"message":"failed expression: false","reason":"Invalid"},"uid":"u1"}"#;

const BOTH_DENY: &str =
    r#"{"validations":[{"expression":"false","message":"a","reason":"Forbidden"},{"expression":"1/0 == 1"}]}"#;

const BOTH_DENIED: &str =
    r#"{"allowed":false,"status":{"code":403,"message":"a; failed expression: 1/0 == 1","reason":"Forbidden"},"uid":"u1"}"#;

const ONE_DENIES: &str =
    r#"{"failurePolicy":"Ignore","validations":[{"expression":"false","message":"a","reason":"Forbidden"},{"expression":"1/0 == 1"}]}"#;

const ONE_DENIED: &str =
    r#"{"allowed":false,"status":{"code":403,"message":"a","reason":"Forbidden"},"uid":"u1"}"#;

const TOLD_DENIED: &str =
    r#"{"allowed":false,"status":{"code":422,"message":"replicas 5 above 3","reason":"Invalid"},"uid":"u1"}"#;

const TOLD_SPACES: &str =
    r#"{"validations":[{"expression":"object.spec.replicas <= 3","messageExpression":"'  '"}]}"#;

const TOLD_ERROR: &str =
    r#"{"validations":[{"expression":"object.spec.replicas <= 3","messageExpression":"string(1/0)"}]}"#;

const TOLD_INT: &str =
    r#"{"validations":[{"expression":"object.spec.replicas <= 3","messageExpression":"dyn(1)"}]}"#;

const TOLD_LINES: &str =
    r#"{"validations":[{"expression":"object.spec.replicas <= 3","messageExpression":"'a\\nb'"}]}"#;

/// A policy's specification, the object under review, the step limit, the status and the response.
const ANSWERED: [(&str, &str, u64, u8, &str); 16] = [
    (MOST, FIVE, DEFAULT_STEPS, 1, MOST_DENIED),
    (MOST, FIVE, 896, 1, MOST_DENIED),
    (MOST, THREE, DEFAULT_STEPS, 0, ALLOWED),
    (FALSE_AND_ERROR, "{}", DEFAULT_STEPS, 0, ALLOWED),
    (ERROR_AND_TRUE, "{}", DEFAULT_STEPS, 1, UNDECIDED),
    (ERROR_IGNORED, "{}", DEFAULT_STEPS, 0, ALLOWED),
    (UNUSED_ERROR, "{}", DEFAULT_STEPS, 0, ALLOWED),
    (VARIABLE_IGNORED, "{}", DEFAULT_STEPS, 1, FALSE_DENIED),
    (BOTH_DENY, "{}", DEFAULT_STEPS, 1, BOTH_DENIED),
    (ONE_DENIES, "{}", DEFAULT_STEPS, 1, ONE_DENIED),
    (TOLD, FIVE, DEFAULT_STEPS, 1, TOLD_DENIED),
    (TOLD_SPACES, FIVE, DEFAULT_STEPS, 1, MOST_DENIED),
    (TOLD_ERROR, FIVE, DEFAULT_STEPS, 1, MOST_DENIED),
    (TOLD_INT, FIVE, DEFAULT_STEPS, 1, MOST_DENIED),
    (TOLD_LINES, FIVE, DEFAULT_STEPS, 1, MOST_DENIED),
    (TOLD_ERROR, THREE, DEFAULT_STEPS, 0, ALLOWED),
];

#[test]
fn answers_reviews(rt: HostRuntime) -> Result<(), Fail> {
    for (row, &(spec, object, steps, status, response)) in ANSWERED.iter().enumerate() {
        let wanted = printed(rt.alloc(), response)?;
        let done = reviewed(rt.alloc(), spec, object, steps)?;
        assert!(rt; answers(&done, status, &wanted), "row {row}");
    }
    Ok(())
}

const HALVES: &str = r#"{"spec":{"replicas":1.5}}"#;

/// A policy's specification, the object under review, the step limit, the status and the refusal.
const UNANSWERED: [(&str, &str, u64, u8, &str); 3] = [
    (MOST, HALVES, DEFAULT_STEPS, 3, "N2"),
    (MOST, FIVE, 1, 4, "N4"),
    (MOST, FIVE, 0, 4, "N4"),
];

#[test]
fn refuses_reviews_under_policies(rt: HostRuntime) -> Result<(), Fail> {
    for (row, &(spec, object, steps, status, refusal)) in UNANSWERED.iter().enumerate() {
        let done = reviewed(rt.alloc(), spec, object, steps)?;
        let line = format!(in rt.alloc(); "celbpf: {refusal}\n")?;
        assert!(rt; is_refused(&done, status, line.as_str()), "row {row}");
    }
    Ok(())
}
