//! The gatekeeper that decides as a whole cluster, over files and streams in memory.

use super::doubles::Clusters;
use super::programs::{is_text, words};
use debugger::Counting;
use gatekeeper_runner::exit_code;
use std::alloc::{AllocError, Global};
use std::process::ExitCode;
use std::test::Fail;
use streams::Buffered;

const BOTH: &str = "gatekeeper --cluster policies --cluster bindings";

/// Deployments of 3 and of 5 replicas, and a document that is not a review.
const THREE: &str =
    r#"{"apiVersion":"admission.k8s.io/v1","kind":"AdmissionReview","request":{"uid":"u1","kind":{"group":"apps","version":"v1","kind":"Deployment"},"resource":{"group":"apps","version":"v1","resource":"deployments"},"operation":"CREATE","name":"web","namespace":"prod","object":{"metadata":{"name":"web"},"spec":{"replicas":3}}}}
{"apiVersion":"admission.k8s.io/v1","kind":"AdmissionReview","request":{"uid":"u2","kind":{"group":"apps","version":"v1","kind":"Deployment"},"resource":{"group":"apps","version":"v1","resource":"deployments"},"operation":"CREATE","name":"web","namespace":"prod","object":{"metadata":{"name":"web"},"spec":{"replicas":5}}}}
{"kind":"Scale","request":{"uid":"u3"}}
"#;

const THREE_ANSWERS: &str =
    r#"{"apiVersion":"admission.k8s.io/v1","kind":"AdmissionReview","response":{"allowed":true,"uid":"u1","warnings":["Validation failed for ValidatingAdmissionPolicy 'q' with binding 'c': odd"]}}
{"apiVersion":"admission.k8s.io/v1","kind":"AdmissionReview","response":{"allowed":false,"status":{"code":422,"message":"deployments.apps \"web\" is forbidden: ValidatingAdmissionPolicy 'p' with binding 'b' denied request: failed expression: object.spec.replicas <= 3","reason":"Invalid"},"uid":"u2","warnings":["Validation failed for ValidatingAdmissionPolicy 'q' with binding 'c': odd"]}}
{"refused":"N2","uid":"u3"}
"#;

/// The words, the status, standard output and standard error, on the lines above.
#[rattlefmt::skip]
const ROWS: [(&str, u8, &str, &str); 38] = [
    (BOTH, 0, THREE_ANSWERS, "gatekeeper: policy p, bindings b\ngatekeeper: policy q, bindings c\n"),
    ("gatekeeper --cluster policies", 0, NOTHING_BOUND, ""),
    ("gatekeeper --cluster none", 3, "", "celbpf: C1 none\n"),
    ("gatekeeper --cluster policies --cluster namespace", 3, "", "celbpf: C1 namespace\n"),
    ("gatekeeper --cluster policies --cluster missing --cluster none", 3, "", "celbpf: missing: not found\n"),
    ("gatekeeper --cluster secret", 3, "", "celbpf: secret: permission denied\n"),
    ("gatekeeper --cluster folder", 3, "", "celbpf: folder: is a directory\n"),
    ("gatekeeper --cluster broken", 3, "", "celbpf: broken: cannot be read\n"),
    ("gatekeeper --cluster no-item", 3, "", "celbpf: C2 1\n"),
    ("gatekeeper --cluster double", 3, "", "celbpf: C3 prod\n"),
    ("gatekeeper --cluster no-namespace", 3, "", "celbpf: C4\n"),
    ("gatekeeper --cluster no-binding", 3, "", "celbpf: C5 b: spec.policyName\n"),
    ("gatekeeper --cluster no-actions", 3, "", "celbpf: C5 b: spec.validationActions\n"),
    ("gatekeeper --cluster no-constraints", 3, "", "celbpf: C6 p\n"),
    ("gatekeeper --cluster no-validations", 3, "", "celbpf: C7 p K4\n"),
    ("gatekeeper --cluster condition", 0, CONDITION_ANSWERS, "gatekeeper: policy p, bindings b\n"),
    ("gatekeeper --cluster condition --profile", 3, "", "celbpf: C7 p namespaceObject\n"),
    ("gatekeeper --cluster no-kind", 3, "", "celbpf: C8 p\n"),
    ("gatekeeper --cluster no-validations --partial", 0, C7_REFUSED, "gatekeeper: policy p, bindings b, blocked C7 K4\n"),
    ("gatekeeper --partial --cluster no-kind", 0, C8_REFUSED, "gatekeeper: policy p, bindings b, params example.com/v1 Limit 0, blocked C8\n"),
    ("gatekeeper --cluster policies --cluster bindings --verbose", 0, THREE_ANSWERS, THREE_TOLD),
    ("gatekeeper --cluster no-validations --partial --verbose", 0, C7_REFUSED, C7_TOLD),
    ("gatekeeper --cluster no-validations --partial --verbose --status", 1, C7_REFUSED, C7_TOLD),
    ("gatekeeper --cluster no-namespace --status", 3, "", "celbpf: C4\n"),
    ("gatekeeper --cluster policies --policy few", 2, "", "celbpf: U1\n"),
    ("gatekeeper --cluster policies --namespace n", 2, "", "celbpf: U1\n"),
    ("gatekeeper --cluster policies --params n", 2, "", "celbpf: U1\n"),
    ("gatekeeper --cluster policies --partial --partial", 2, "", "celbpf: U1\n"),
    ("gatekeeper --policy few --partial", 2, "", "celbpf: U1\n"),
    ("gatekeeper --partial", 2, "", "celbpf: U1\n"),
    ("gatekeeper --cluster", 2, "", "celbpf: U1\n"),
    ("gatekeeper --cluster policies --cluster bindings --profile", 0, THREE_ANSWERS, "gatekeeper: policy p, bindings b\ngatekeeper: policy q, bindings c\n"),
    ("gatekeeper --cluster wide", 3, "", "celbpf: C7 p K6 message 1 W5 url\n"),
    ("gatekeeper --cluster wide --leave-messages", 0, WIDE_ANSWERS, WIDE_TOLD),
    ("gatekeeper --cluster wide --partial", 0, C7_REFUSED, "gatekeeper: policy p, bindings b, blocked C7 K6 message 1 W5 url\n"),
    ("gatekeeper --cluster wide --profile", 3, "", "celbpf: C7 p K6 validation 0 P4 at 7\n"),
    ("gatekeeper --cluster no-validations --leave-messages", 3, "", "celbpf: C7 p K4\n"),
    ("gatekeeper --cluster wide --leave-messages --profile", 2, "", "celbpf: U1\n"),
];

/// The answers of `wide`, whose second message expression is left out.
const WIDE_ANSWERS: &str =
    r#"{"apiVersion":"admission.k8s.io/v1","kind":"AdmissionReview","response":{"allowed":true,"uid":"u1"}}
{"apiVersion":"admission.k8s.io/v1","kind":"AdmissionReview","response":{"allowed":false,"status":{"code":422,"message":"deployments.apps \"web\" is forbidden: ValidatingAdmissionPolicy 'p' with binding 'b' denied request: failed expression: object.spec.?replicas.orValue(1) <= 3","reason":"Invalid"},"uid":"u2"}}
{"refused":"N2","uid":"u3"}
"#;

const WIDE_TOLD: &str = r#"gatekeeper: policy p, bindings b
gatekeeper: policy p, left out message 1 W5 url
"#;

/// The answers of `condition`, which denies if a match condition has no namespace.
const CONDITION_ANSWERS: &str =
    r#"{"apiVersion":"admission.k8s.io/v1","kind":"AdmissionReview","response":{"allowed":false,"status":{"code":422,"message":"deployments.apps \"web\" is forbidden: ValidatingAdmissionPolicy 'p' with binding 'b' denied request: odd","reason":"Invalid"},"uid":"u1"}}
{"apiVersion":"admission.k8s.io/v1","kind":"AdmissionReview","response":{"allowed":false,"status":{"code":422,"message":"deployments.apps \"web\" is forbidden: ValidatingAdmissionPolicy 'p' with binding 'b' denied request: odd","reason":"Invalid"},"uid":"u2"}}
{"refused":"N2","uid":"u3"}
"#;

/// The answers if no policy is bound.
const NOTHING_BOUND: &str =
    r#"{"apiVersion":"admission.k8s.io/v1","kind":"AdmissionReview","response":{"allowed":true,"uid":"u1"}}
{"apiVersion":"admission.k8s.io/v1","kind":"AdmissionReview","response":{"allowed":true,"uid":"u2"}}
{"refused":"N2","uid":"u3"}
"#;

/// The answers if the policy that matches is blocked.
const C7_REFUSED: &str = r#"{"policy":"p","refused":"C7","uid":"u1"}
{"policy":"p","refused":"C7","uid":"u2"}
{"refused":"N2","uid":"u3"}
"#;

/// Standard error with `--verbose`: first the lines on the policies, then the refused lines.
const THREE_TOLD: &str = r#"gatekeeper: policy p, bindings b
gatekeeper: policy q, bindings c
celbpf: line 3: {"refused":"N2","uid":"u3"}
"#;

const C7_TOLD: &str = r#"gatekeeper: policy p, bindings b, blocked C7 K4
celbpf: line 1: {"policy":"p","refused":"C7","uid":"u1"}
celbpf: line 2: {"policy":"p","refused":"C7","uid":"u2"}
celbpf: line 3: {"refused":"N2","uid":"u3"}
"#;

const C8_REFUSED: &str = r#"{"policy":"p","refused":"C8","uid":"u1"}
{"policy":"p","refused":"C8","uid":"u2"}
{"refused":"N2","uid":"u3"}
"#;

/// Whether the program with these words ends with the status and both outputs.
fn ends(alloc: Global, line: &str, due: (u8, &str, &str)) -> Result<bool, AllocError> {
    let mut out = [0u8; 1024];
    let mut err = [0u8; 256];
    let mut input = Buffered::<_, 64>::new(Counting::new(THREE.as_bytes()));
    let code = exit_code(
        alloc,
        Ok(words(alloc, line)?),
        &mut Clusters,
        &mut input,
        &mut Counting::new(&mut out[..]),
        &mut Counting::new(&mut err[..]),
    );
    Ok(
        code == ExitCode::from(due.0)
            && is_text(&out, due.1.as_bytes())
            && is_text(&err, due.2.as_bytes()),
    )
}

#[test]
fn answers_as_a_cluster(rt: HostRuntime) -> Result<(), Fail> {
    for (row, &(line, status, out, err)) in ROWS.iter().enumerate() {
        assert!(rt; ends(rt.alloc(), line, (status, out, err))?, "row {row}");
    }
    Ok(())
}
