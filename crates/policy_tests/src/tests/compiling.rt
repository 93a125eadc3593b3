//! Policies that are compiled, and why others are refused.

use super::{assert_none, cells, policy_text, read_policy};
use policy_glue::{CompileError, Policy, compile};
use std::alloc::{AllocError, Global};

/// The error of the policy, if it is not compiled.
fn error_of(alloc: Global, policy: &Policy) -> Option<CompileError> {
    compile(alloc, policy).err()
}

/// The outcome for a policy that is read: `compiled`, or its error.
fn outcome(alloc: Global, policy: &Policy) -> Result<String, AllocError> {
    match error_of(alloc, policy) {
        Some(error) => format!(in alloc; "{error}"),
        None => String::from_str(alloc, "compiled"),
    }
}

/// Whether a policy is read, and has this outcome.
fn has_outcome(alloc: Global, policy: Option<Policy>, want: &str) -> Result<bool, AllocError> {
    match policy {
        Some(policy) => Ok(outcome(alloc, &policy)?.as_str() == want),
        None => Ok(false),
    }
}

/// Whether this is the outcome for the policy with this specification.
fn comes_to(alloc: Global, spec: &str, want: &str) -> Result<bool, AllocError> {
    let text = policy_text(alloc, spec)?;
    let policy = read_policy(alloc, text.as_str()).ok();
    drop(text);
    has_outcome(alloc, policy, want)
}

/// The expression of a policy's only validation, and the outcome.
const EXPRESSIONS: [(&str, &str); 11] = [
    ("object.spec.replicas <= 3", "compiled"),
    ("object.spec.paused", "compiled"),
    ("object.spec. <= 3", "K6 validation 0 P4 at 13"),
    ("9223372036854775808 == 1", "K6 validation 0 P3 at 0"),
    ("a # b", "K6 validation 0 P1 at 2"),
    ("has(object)", "K6 validation 0 M3"),
    ("[1].all(object, true)", "K6 validation 0 M2"),
    ("x", "K6 validation 0 Y1"),
    ("'a' + 1", "K6 validation 0 Y2"),
    ("variables", "K6 validation 0 Y3"),
    ("1 + 1", "K7"),
];

/// Whether this is the outcome for the policy with this validation.
fn validation_comes_to(alloc: Global, text: &str, want: &str) -> Result<bool, AllocError> {
    let spec = [r#"{"validations":[{"expression":""#, text, r#""}]}"#].join(alloc, "")?;
    comes_to(alloc, spec.as_str(), want)
}

fn wrong_expression(alloc: Global) -> Result<Option<&'static str>, AllocError> {
    for &(expression, want) in &EXPRESSIONS {
        if !validation_comes_to(alloc, expression, want)? {
            return Ok(Some(expression));
        }
    }
    Ok(None)
}

#[test]
fn expressions(rt: HostRuntime) {
    assert_none(&rt, wrong_expression(rt.alloc()));
}

/// One row per line: a specification, a broken bar and the outcome. Each part is checked completely before the next,
/// in the order of variables, conditions and validations.
const SPECS: &str =
    r##"{"variables":[{"name":"v0","expression":"variables.v1"},{"name":"v1","expression":"1"}],"validations":[{"expression":"true"}]}¦K6 variable 0 Y3
{"variables":[{"name":"v0","expression":"true"}],"matchConditions":[{"name":"c","expression":"variables.v0"}],"validations":[{"expression":"true"}]}¦K6 condition 0 Y3
{"variables":[{"name":"v0","expression":"true"}],"validations":[{"expression":"variables.v0"}]}¦compiled
{"variables":[{"name":"v0","expression":"x"}],"matchConditions":[{"name":"c","expression":"1"}],"validations":[{"expression":"#"}]}¦K6 variable 0 Y1
{"matchConditions":[{"name":"c","expression":"1"}],"validations":[{"expression":"#"}]}¦K7
{"validations":[{"expression":"true","messageExpression":"1"},{"expression":"1"}]}¦K9
{"validations":[{"expression":"true","messageExpression":"'a"},{"expression":"1"}]}¦K6 message 0 P2 at 0
{"validations":[{"expression":"true"},{"expression":"true","messageExpression":""}]}¦K6 message 1 P4 at 0
{"validations":[{"expression":"1","messageExpression":"'a"}]}¦K7
{"validations":[{"expression":"true","messageExpression":"dyn(1)"}]}¦compiled"##;

fn wrong_specification(alloc: Global) -> Result<Option<&'static str>, AllocError> {
    for line in SPECS.lines() {
        let (spec, want) = cells(line);
        if !comes_to(alloc, spec, want)? {
            return Ok(Some(spec));
        }
    }
    Ok(None)
}

#[test]
fn specifications(rt: HostRuntime) {
    assert_none(&rt, wrong_specification(rt.alloc()));
}

/// A specification with these variables, after one that is 1.
fn with_variables(alloc: Global, variables: &str) -> Result<String, AllocError> {
    [
        "{\"validations\":[{\"expression\":\"true\"}],\"variables\":[{\"name\":\"v0\",\"expression\":\"1\"}",
        variables,
        "]}",
    ]
    .join(alloc, "")
}

/// Variables, each of which refers to the one before it.
const SIX: &str =
    r#",{"name":"v1","expression":"variables.v0"},{"name":"v2","expression":"variables.v1"},{"name":"v3","expression":"variables.v2"},{"name":"v4","expression":"variables.v3"},{"name":"v5","expression":"variables.v4"}"#;

const SEVEN: &str =
    r#",{"name":"v1","expression":"variables.v0"},{"name":"v2","expression":"variables.v1"},{"name":"v3","expression":"variables.v2"},{"name":"v4","expression":"variables.v3"},{"name":"v5","expression":"variables.v4"},{"name":"v6","expression":"variables.v5"}"#;

/// Whether this is the outcome for the policy with these variables.
fn variables_come_to(alloc: Global, variables: &str, want: &str) -> Result<bool, AllocError> {
    let spec = with_variables(alloc, variables)?;
    comes_to(alloc, spec.as_str(), want)
}

#[test]
fn variables_of_variables(rt: HostRuntime) {
    assert!(rt; variables_come_to(rt.alloc(), SIX, "compiled") == Ok(true));
    assert!(rt; variables_come_to(rt.alloc(), SEVEN, "K6 variable 6 G2") == Ok(true));
}

type Row = (
    &'static str,
    usize,
    &'static str,
    &'static str,
    &'static str,
    &'static str,
);

/// An expression in brackets or with operators, which are repeated on both sides of the text between
/// them; its end; and the outcome for a policy with it.
const REPEATED: [Row; 7] = [
    ("(", 100, "true", ")", "", "compiled"),
    ("(", 101, "true", ")", "", "K6 validation 0 P5 at 100"),
    ("1+(", 58, "1+1", ")", "==1", "compiled"),
    ("1+(", 59, "1+1", ")", "==1", "K6 validation 0 G1"),
    ("true&&", 254, "true", "", "", "compiled"),
    ("true&&", 255, "true", "", "", "G3"),
    ("!", 4096, "true", "", "", "K6 validation 0 P6 at 4096"),
];

/// A text between two others, if there was memory for those, and its end.
fn between(
    alloc: Global,
    before: Result<String, AllocError>,
    [middle, end]: [&str; 2],
    behind: Result<String, AllocError>,
) -> Result<String, AllocError> {
    let before = before?;
    let behind = behind?;
    [before.as_str(), middle, behind.as_str(), end].join(alloc, "")
}

/// Whether a row's expression has its outcome.
fn is_as_told(alloc: Global, row: &Row) -> Result<bool, AllocError> {
    let &(before, n, middle, behind, end, want) = row;
    let expression = between(
        alloc,
        before.repeat(alloc, n),
        [middle, end],
        behind.repeat(alloc, n),
    )?;
    validation_comes_to(alloc, expression.as_str(), want)
}

/// The outcome of the first row that is wrong.
fn wrong_repetition(alloc: Global) -> Result<Option<&'static str>, AllocError> {
    for row in &REPEATED {
        if !is_as_told(alloc, row)? {
            return Ok(Some(row.5));
        }
    }
    Ok(None)
}

#[test]
fn limits_of_expressions(rt: HostRuntime) {
    assert_none(&rt, wrong_repetition(rt.alloc()));
}

/// The digits before the letters of 17 texts.
const NUMBERS: [&str; 17] = [
    "00", "01", "02", "03", "04", "05", "06", "07", "08", "09", "10", "11", "12", "13", "14", "15",
    "16",
];

/// Appends a validation with a text of its own: these digits and letters.
fn push_validation(spec: &mut String, number: &str, letters: &str) -> Result<(), AllocError> {
    spec.push_str("{\"expression\":\"'")?;
    spec.push_str(number)?;
    spec.push_str(letters)?;
    spec.push_str("' == 'a'\"}")
}

/// Appends a validation for each of these numbers, with commas between them.
fn push_validations(spec: &mut String, numbers: &[&str], letters: &str) -> Result<(), AllocError> {
    let mut comma = "";
    for number in numbers {
        spec.push_str(comma)?;
        push_validation(spec, number, letters)?;
        comma = ",";
    }
    spec.push_str("]}")
}

/// A specification with a validation for each of these numbers, with a unique text of 62,000 bytes:
/// its number in two digits, then letters.
fn with_texts(alloc: Global, numbers: &[&str]) -> Result<String, AllocError> {
    let letters = "a".repeat(alloc, 61_998)?;
    let mut spec = String::from_str(alloc, "{\"validations\":[")?;
    push_validations(&mut spec, numbers, letters.as_str())?;
    Ok(spec)
}

/// Whether this is the outcome for the policy with so many texts.
fn texts_come_to(alloc: Global, numbers: &[&str], want: &str) -> Result<bool, AllocError> {
    let spec = with_texts(alloc, numbers)?;
    comes_to(alloc, spec.as_str(), want)
}

#[test]
fn texts_of_policies(rt: HostRuntime) {
    assert!(rt; texts_come_to(rt.alloc(), &NUMBERS[..16], "compiled") == Ok(true));
    assert!(rt; texts_come_to(rt.alloc(), &NUMBERS, "G4") == Ok(true));
}
