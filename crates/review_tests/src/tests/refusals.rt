//! Policies that are refused.

use super::{comes_to, policy_of};
use std::test::Fail;

/// One row per line: a policy's specification, a broken bar and its error.
const SPECIFICATIONS: &str = r#"{}¦K3
{"validations":[]}¦K4
{"validations":[{"expression":"true","message":"a\nb"}]}¦K8
{"validations":[{"expression":"object.spec. <= 3"}]}¦K6 validation 0 P4 at 13
{"validations":[{"expression":"9223372036854775808 == 1"}]}¦K6 validation 0 P3 at 0
{"validations":[{"expression":"1 + 1"}]}¦K7
{"validations":[{"expression":"'a' + 1"}]}¦K6 validation 0 Y2
{"validations":[{"expression":"has(object)"}]}¦K6 validation 0 M3
{"validations":[{"expression":"[1].all(object, true)"}]}¦K6 validation 0 M2
{"validations":[{"expression":"variables"}]}¦K6 validation 0 Y3
{"variables":[{"name":"v0","expression":"1"},{"name":"v1","expression":"variables.v0"},{"name":"v2","expression":"variables.v1"},{"name":"v3","expression":"variables.v2"},{"name":"v4","expression":"variables.v3"},{"name":"v5","expression":"variables.v4"},{"name":"v6","expression":"variables.v5"}],"validations":[{"expression":"true"}]}¦K6 variable 6 G2
{"variables":[{"name":"v0","expression":"variables.v1"},{"name":"v1","expression":"1"}],"validations":[{"expression":"true"}]}¦K6 variable 0 Y3
{"variables":[{"name":"v0","expression":"true"}],"matchConditions":[{"name":"a","expression":"variables.v0"}],"validations":[{"expression":"true"}]}¦K6 condition 0 Y3
{"validations":[{"expression":"true","messageExpression":"1"}]}¦K9
{"validations":[{"expression":"true","messageExpression":"'a"}]}¦K6 message 0 P2 at 0"#;

#[test]
fn refuses_specifications(rt: HostRuntime) -> Result<(), Fail> {
    for line in SPECIFICATIONS.lines() {
        let (spec, refusal) = line.split_once('¦').unwrap_or((line, ""));
        let policy = policy_of(rt.alloc(), spec)?;
        assert!(rt; comes_to(rt.alloc(), &policy, Some(refusal))?, "{spec}");
    }
    Ok(())
}

/// Documents that are not policies, with their errors.
const DOCUMENTS: [(&str, &str); 3] = [("", "K1"), ("{\"apiVersion\":", "K1"), ("[]", "K2")];

#[test]
fn refuses_other_documents(rt: HostRuntime) -> Result<(), Fail> {
    for &(document, refusal) in DOCUMENTS.iter() {
        assert!(rt;
            comes_to(rt.alloc(), document.as_bytes(), Some(refusal))?,
            "{document}"
        );
    }
    Ok(())
}
