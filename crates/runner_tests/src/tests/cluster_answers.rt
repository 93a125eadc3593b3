//! What the gatekeeper answers in a cluster with one binding. A wrong body that reports out of memory
//! meets the contracts, which allow that anywhere; these answers refuse it.

use super::doubles::{DEEP, OneBinding};
use super::programs::{is_text, words};
use debugger::Counting;
use gatekeeper_runner::exit_code;
use std::alloc::{AllocError, Global};
use std::process::ExitCode;
use std::test::Fail;
use streams::Buffered;

const STATE: &str = "gatekeeper --cluster state";

/// A policy `p` for all resources of version v1. It denies.
const DENIES: &str =
    r#"{"apiVersion":"admissionregistration.k8s.io/v1","kind":"ValidatingAdmissionPolicy","metadata":{"name":"p"},"spec":{"matchConstraints":{"resourceRules":[{"apiGroups":["*"],"apiVersions":["v1"],"operations":["*"],"resources":["*"]}]},"validations":[{"expression":"false"}]}}"#;

/// The same, which allows.
const ALLOWS: &str =
    r#"{"apiVersion":"admissionregistration.k8s.io/v1","kind":"ValidatingAdmissionPolicy","metadata":{"name":"p"},"spec":{"matchConstraints":{"resourceRules":[{"apiGroups":["*"],"apiVersions":["v1"],"operations":["*"],"resources":["*"]}]},"failurePolicy":"Ignore","validations":[{"expression":"true"}]}}"#;

/// The same, which denies in namespaces with a label.
const SELECTS: &str =
    r#"{"apiVersion":"admissionregistration.k8s.io/v1","kind":"ValidatingAdmissionPolicy","metadata":{"name":"p"},"spec":{"matchConstraints":{"namespaceSelector":{"matchLabels":{"env":"prod"}},"resourceRules":[{"apiGroups":["*"],"apiVersions":["v1"],"operations":["*"],"resources":["*"]}]},"validations":[{"expression":"false"}]}}"#;

/// The same, which denies the name in its params.
const NAMES_PARAMS: &str =
    r#"{"apiVersion":"admissionregistration.k8s.io/v1","kind":"ValidatingAdmissionPolicy","metadata":{"name":"p"},"spec":{"matchConstraints":{"resourceRules":[{"apiGroups":["*"],"apiVersions":["v1"],"operations":["*"],"resources":["*"]}]},"paramKind":{"apiVersion":"v1","kind":"ConfigMap"},"validations":[{"expression":"object.metadata.name != params.data.name","messageExpression":"'not ' + params.data.name"}]}}"#;

/// A binding `b` of the policy.
const DENY: &str =
    r#"{"apiVersion":"admissionregistration.k8s.io/v1","kind":"ValidatingAdmissionPolicyBinding","metadata":{"name":"b"},"spec":{"policyName":"p","validationActions":["Deny"]}}"#;

/// The same, with other actions.
const AUDIT: &str =
    r#"{"apiVersion":"admissionregistration.k8s.io/v1","kind":"ValidatingAdmissionPolicyBinding","metadata":{"name":"b"},"spec":{"policyName":"p","validationActions":["Audit"]}}"#;

const WARN_AND_AUDIT: &str =
    r#"{"apiVersion":"admissionregistration.k8s.io/v1","kind":"ValidatingAdmissionPolicyBinding","metadata":{"name":"b"},"spec":{"policyName":"p","validationActions":["Warn","Audit"]}}"#;

/// The same, for resources of version v2.
const DENY_VERSION_2: &str =
    r#"{"apiVersion":"admissionregistration.k8s.io/v1","kind":"ValidatingAdmissionPolicyBinding","metadata":{"name":"b"},"spec":{"policyName":"p","validationActions":["Deny"],"matchResources":{"resourceRules":[{"apiGroups":["*"],"apiVersions":["v2"],"operations":["*"],"resources":["*"]}]}}}"#;

/// That binding, here named `a`, and then `b` for all resources.
const DENY_VERSION_2_FIRST: &str =
    r#"{"apiVersion":"admissionregistration.k8s.io/v1","kind":"ValidatingAdmissionPolicyBinding","metadata":{"name":"a"},"spec":{"policyName":"p","validationActions":["Deny"],"matchResources":{"resourceRules":[{"apiGroups":["*"],"apiVersions":["v2"],"operations":["*"],"resources":["*"]}]}}},
{"apiVersion":"admissionregistration.k8s.io/v1","kind":"ValidatingAdmissionPolicyBinding","metadata":{"name":"b"},"spec":{"policyName":"p","validationActions":["Deny"]}}"#;

/// A policy `p` under Ignore and `q` under Fail, for all resources of version v1.
const IGNORE_AND_FAIL: &str =
    r#"{"apiVersion":"admissionregistration.k8s.io/v1","kind":"ValidatingAdmissionPolicy","metadata":{"name":"p"},"spec":{"matchConstraints":{"resourceRules":[{"apiGroups":["*"],"apiVersions":["v1"],"operations":["*"],"resources":["*"]}]},"failurePolicy":"Ignore","validations":[{"expression":"true"}]}},
{"apiVersion":"admissionregistration.k8s.io/v1","kind":"ValidatingAdmissionPolicy","metadata":{"name":"q"},"spec":{"matchConstraints":{"resourceRules":[{"apiGroups":["*"],"apiVersions":["v1"],"operations":["*"],"resources":["*"]}]},"validations":[{"expression":"true"}]}}"#;

/// A binding of each.
const DENY_EACH: &str =
    r#"{"apiVersion":"admissionregistration.k8s.io/v1","kind":"ValidatingAdmissionPolicyBinding","metadata":{"name":"b"},"spec":{"policyName":"p","validationActions":["Deny"]}},
{"apiVersion":"admissionregistration.k8s.io/v1","kind":"ValidatingAdmissionPolicyBinding","metadata":{"name":"c"},"spec":{"policyName":"q","validationActions":["Deny"]}}"#;

/// The same, with params that are listed.
const WITH_LIMITS: &str =
    r#"{"apiVersion":"admissionregistration.k8s.io/v1","kind":"ValidatingAdmissionPolicyBinding","metadata":{"name":"b"},"spec":{"policyName":"p","validationActions":["Deny"],"paramRef":{"name":"limits","parameterNotFoundAction":"Deny"}}}"#;

/// The same, with params that are not.
const WITH_ABSENT: &str =
    r#"{"apiVersion":"admissionregistration.k8s.io/v1","kind":"ValidatingAdmissionPolicyBinding","metadata":{"name":"b"},"spec":{"policyName":"p","validationActions":["Deny"],"paramRef":{"name":"absent","parameterNotFoundAction":"Deny"}}}"#;

/// The creation of a pod.
const POD: &str =
    r#"{"apiVersion":"admission.k8s.io/v1","kind":"AdmissionReview","request":{"uid":"u1","kind":{"group":"","version":"v1","kind":"Pod"},"resource":{"group":"","version":"v1","resource":"pods"},"operation":"CREATE","name":"web","namespace":"prod","object":{"metadata":{"name":"web"}}}}"#;

/// The same, of version v2.
const POD_VERSION_2: &str =
    r#"{"apiVersion":"admission.k8s.io/v1","kind":"AdmissionReview","request":{"uid":"u1","kind":{"group":"","version":"v2","kind":"Pod"},"resource":{"group":"","version":"v2","resource":"pods"},"operation":"CREATE","name":"web","namespace":"prod","object":{"metadata":{"name":"web"}}}}"#;

/// The same, with a number that is no int.
const POD_WITH_HALF: &str =
    r#"{"apiVersion":"admission.k8s.io/v1","kind":"AdmissionReview","request":{"uid":"u1","kind":{"group":"","version":"v1","kind":"Pod"},"resource":{"group":"","version":"v1","resource":"pods"},"operation":"CREATE","name":"web","namespace":"prod","object":{"metadata":{"name":"web"},"spec":{"weight":0.5}}}}"#;

/// The same, in a namespace with such a number.
const POD_IN_HALF: &str =
    r#"{"apiVersion":"admission.k8s.io/v1","kind":"AdmissionReview","request":{"uid":"u1","kind":{"group":"","version":"v1","kind":"Pod"},"resource":{"group":"","version":"v1","resource":"pods"},"operation":"CREATE","name":"web","namespace":"half","object":{"metadata":{"name":"web"}}}}"#;

/// The same, in a namespace that is not listed.
const POD_IN_GONE: &str =
    r#"{"apiVersion":"admission.k8s.io/v1","kind":"AdmissionReview","request":{"uid":"u1","kind":{"group":"","version":"v1","kind":"Pod"},"resource":{"group":"","version":"v1","resource":"pods"},"operation":"CREATE","name":"web","namespace":"gone","object":{"metadata":{"name":"web"}}}}"#;

/// The creation of a policy.
const POLICY: &str =
    r#"{"apiVersion":"admission.k8s.io/v1","kind":"AdmissionReview","request":{"uid":"u1","kind":{"group":"admissionregistration.k8s.io","version":"v1","kind":"ValidatingAdmissionPolicy"},"resource":{"group":"admissionregistration.k8s.io","version":"v1","resource":"validatingadmissionpolicies"},"operation":"CREATE","name":"q","object":{"metadata":{"name":"q"}}}}"#;

/// The words, the state, a review and its answer.
struct Case {
    name: &'static str,
    words: &'static str,
    policy: &'static str,
    binding: &'static str,
    review: &'static str,
    answer: &'static str,
}

#[rattlefmt::skip]
const CASES: [Case; 16] = [
    Case {
        name: "the namespace is selected",
        words: STATE,
        policy: SELECTS,
        binding: DENY,
        review: POD,
        answer: r#"{"apiVersion":"admission.k8s.io/v1","kind":"AdmissionReview","response":{"allowed":false,"status":{"code":422,"message":"pods \"web\" is forbidden: ValidatingAdmissionPolicy 'p' with binding 'b' denied request: failed expression: false","reason":"Invalid"},"uid":"u1"}}"#,
    },
    Case {
        name: "params are found",
        words: STATE,
        policy: NAMES_PARAMS,
        binding: WITH_LIMITS,
        review: POD,
        answer: r#"{"apiVersion":"admission.k8s.io/v1","kind":"AdmissionReview","response":{"allowed":false,"status":{"code":422,"message":"pods \"web\" is forbidden: ValidatingAdmissionPolicy 'p' with binding 'b' denied request: not web","reason":"Invalid"},"uid":"u1"}}"#,
    },
    Case {
        name: "params are not found",
        words: STATE,
        policy: NAMES_PARAMS,
        binding: WITH_ABSENT,
        review: POD,
        answer: r#"{"apiVersion":"admission.k8s.io/v1","kind":"AdmissionReview","response":{"allowed":false,"status":{"code":422,"message":"pods \"web\" is forbidden: ValidatingAdmissionPolicy 'p' with binding 'b' denied request: failed to configure binding: no params found for policy binding with `Deny` parameterNotFoundAction","reason":"Invalid"},"uid":"u1"}}"#,
    },
    Case {
        name: "the selector's namespace is not found",
        words: STATE,
        policy: SELECTS,
        binding: DENY,
        review: POD_IN_GONE,
        answer: r#"{"apiVersion":"admission.k8s.io/v1","kind":"AdmissionReview","response":{"allowed":false,"status":{"code":422,"message":"pods \"web\" is forbidden: ValidatingAdmissionPolicy 'p' denied request: failed to configure policy: namespaces \"gone\" not found","reason":"Invalid"},"uid":"u1"}}"#,
    },
    Case {
        name: "the namespace is not found",
        words: STATE,
        policy: ALLOWS,
        binding: AUDIT,
        review: POD_IN_GONE,
        answer: r#"{"apiVersion":"admission.k8s.io/v1","kind":"AdmissionReview","response":{"allowed":false,"status":{"code":404,"message":"namespaces \"gone\" not found","reason":"NotFound"},"uid":"u1"}}"#,
    },
    Case {
        name: "warned and audited",
        words: STATE,
        policy: DENIES,
        binding: WARN_AND_AUDIT,
        review: POD,
        answer: r#"{"apiVersion":"admission.k8s.io/v1","kind":"AdmissionReview","response":{"allowed":true,"auditAnnotations":{"validation.policy.admission.k8s.io/validation_failure":"[{\"message\":\"failed expression: false\",\"policy\":\"p\",\"binding\":\"b\",\"expressionIndex\":0,\"validationActions\":[\"Warn\",\"Audit\"]}]"},"uid":"u1","warnings":["Validation failed for ValidatingAdmissionPolicy 'p' with binding 'b': failed expression: false"]}}"#,
    },
    Case {
        name: "exempt",
        words: STATE,
        policy: DENIES,
        binding: DENY,
        review: POLICY,
        answer: r#"{"apiVersion":"admission.k8s.io/v1","kind":"AdmissionReview","response":{"allowed":true,"uid":"u1"}}"#,
    },
    Case {
        name: "another version than the policy's",
        words: STATE,
        policy: DENIES,
        binding: DENY,
        review: POD_VERSION_2,
        answer: r#"{"policy":"p","refused":"N6","uid":"u1"}"#,
    },
    Case {
        name: "another version than the binding's",
        words: STATE,
        policy: DENIES,
        binding: DENY_VERSION_2,
        review: POD,
        answer: r#"{"policy":"p","refused":"N6","uid":"u1"}"#,
    },
    Case {
        name: "another version than the first binding's",
        words: STATE,
        policy: DENIES,
        binding: DENY_VERSION_2_FIRST,
        review: POD,
        answer: r#"{"apiVersion":"admission.k8s.io/v1","kind":"AdmissionReview","response":{"allowed":false,"status":{"code":422,"message":"pods \"web\" is forbidden: ValidatingAdmissionPolicy 'p' with binding 'b' denied request: failed expression: false","reason":"Invalid"},"uid":"u1"}}"#,
    },
    Case {
        name: "too few steps under Ignore and then under Fail",
        words: "gatekeeper --cluster state --steps 1",
        policy: IGNORE_AND_FAIL,
        binding: DENY_EACH,
        review: POD,
        answer: r#"{"policy":"q","refused":"N4","uid":"u1"}"#,
    },
    Case {
        name: "a number in the request",
        words: STATE,
        policy: DENIES,
        binding: DENY,
        review: POD_WITH_HALF,
        answer: r#"{"policy":"p","refused":"N2","uid":"u1"}"#,
    },
    Case {
        name: "a number in the namespace",
        words: STATE,
        policy: DENIES,
        binding: DENY,
        review: POD_IN_HALF,
        answer: r#"{"policy":"p","refused":"N3","uid":"u1"}"#,
    },
    Case {
        name: "too few steps",
        words: "gatekeeper --cluster state --steps 1",
        policy: DENIES,
        binding: DENY,
        review: POD,
        answer: r#"{"policy":"p","refused":"N4","uid":"u1"}"#,
    },
    Case {
        name: "too few reads",
        words: "gatekeeper --cluster state --reads 0",
        policy: NAMES_PARAMS,
        binding: WITH_LIMITS,
        review: POD,
        answer: r#"{"policy":"p","refused":"N7","uid":"u1"}"#,
    },
    Case {
        name: "too deep a list",
        words: STATE,
        policy: DEEP,
        binding: DENY,
        review: POD,
        answer: r#"{"policy":"p","refused":"N5","uid":"u1"}"#,
    },
];

/// Whether the program ends well, with this answer.
fn is_answered(alloc: Global, case: &Case) -> Result<bool, AllocError> {
    let mut out = [0u8; 1024];
    let mut err = [0u8; 128];
    let mut files = OneBinding {
        policy: case.policy,
        binding: case.binding,
    };
    let code = exit_code(
        alloc,
        Ok(words(alloc, case.words)?),
        &mut files,
        &mut Buffered::<_, 64>::new(Counting::new(case.review.as_bytes())),
        &mut Counting::new(&mut out[..]),
        &mut Counting::new(&mut err[..]),
    );
    let due = format!(in alloc; "{}\n", case.answer)?;
    Ok(code == ExitCode::from(0) && is_text(&out, due.as_bytes()))
}

#[test]
fn answers_in_a_cluster(rt: HostRuntime) -> Result<(), Fail> {
    for case in CASES.iter() {
        assert!(rt; is_answered(rt.alloc(), case)?, "{}", case.name);
    }
    Ok(())
}
