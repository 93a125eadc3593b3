//! One call of each export, on documents whose responses are worked by hand.

use crate::gate_place::GatePlace;
use crate::gates::{
    celbpf_gate_decide, celbpf_gate_decide_within, celbpf_gate_free, celbpf_gate_new,
    celbpf_gate_new_wide,
};
use crate::without_gate::{
    celbpf_compile, celbpf_review, celbpf_review_wide, celbpf_review_within, celbpf_version,
};

const POLICY: &[u8] =
    br#"{"apiVersion":"admissionregistration.k8s.io/v1","kind":"ValidatingAdmissionPolicy","spec":{"validations":[{"expression":"object.n < 3"}]}}"#;

const REVIEW: &[u8] =
    br#"{"apiVersion":"admission.k8s.io/v1","kind":"AdmissionReview","request":{"uid":"u1","object":{"n":3}}}"#;

const RESPONSE: &[u8] =
    br#"{"apiVersion":"admission.k8s.io/v1","kind":"AdmissionReview","response":{"allowed":false,"status":{"code":422,"message":"failed expression: object.n < 3","reason":"Invalid"},"uid":"u1"}}"#;

/// More steps than the policy needs.
const STEPS: u64 = 10_000;

#[test]
fn a_gate_decides(rt: HostRuntime) {
    let mut place = GatePlace::empty(rt.alloc());
    let mut room = [0u8; 256];
    let mut len = 9;
    let made = celbpf_gate_new(rt.alloc(), &mut place, POLICY, &mut room, &mut len);
    assert!(rt; (made, len) == (0, 0));
    let status = celbpf_gate_decide(
        rt.alloc(),
        &mut place,
        REVIEW,
        b"",
        b"",
        STEPS,
        &mut room,
        &mut len,
    );
    assert!(rt; status == 1);
    assert!(rt; room.get(..len) == Some(RESPONSE));
    drop(place.into_gate());
}

// The policy reads one byte of the review: that of the key `n`, in a map of one entry.
#[test]
fn a_gate_decides_within_reads(rt: HostRuntime) {
    let mut place = GatePlace::empty(rt.alloc());
    let mut room = [0u8; 256];
    let mut len = 0;
    celbpf_gate_new(rt.alloc(), &mut place, POLICY, &mut room, &mut len);
    let status = celbpf_gate_decide_within(
        rt.alloc(),
        &mut place,
        REVIEW,
        b"",
        b"",
        STEPS,
        0,
        &mut room,
        &mut len,
    );
    assert!(rt; status == 12);
    assert!(rt; room.get(..len) == Some(&b"celbpf: N7\n"[..]));
    let status = celbpf_gate_decide_within(
        rt.alloc(),
        &mut place,
        REVIEW,
        b"",
        b"",
        STEPS,
        1,
        &mut room,
        &mut len,
    );
    assert!(rt; status == 1);
    assert!(rt; room.get(..len) == Some(RESPONSE));
    drop(place.into_gate());
}

#[test]
fn a_review_is_decided_within_reads(rt: HostRuntime) {
    let mut room = [0u8; 256];
    let mut len = 0;
    let status = celbpf_review_within(
        rt.alloc(),
        POLICY,
        REVIEW,
        b"",
        b"",
        STEPS,
        0,
        &mut room,
        &mut len,
    );
    assert!(rt; status == 12);
    assert!(rt; room.get(..len) == Some(&b"celbpf: N7\n"[..]));
}

#[test]
fn a_refused_policy_keeps_the_gate(rt: HostRuntime) {
    let mut place = GatePlace::empty(rt.alloc());
    let mut room = [0u8; 256];
    let mut len = 0;
    celbpf_gate_new(rt.alloc(), &mut place, POLICY, &mut room, &mut len);
    let made = celbpf_gate_new(rt.alloc(), &mut place, b"[", &mut room, &mut len);
    assert!(rt; made == 2);
    assert!(rt; room.get(..len) == Some(&b"celbpf: K1\n"[..]));
    celbpf_gate_free(rt.alloc(), &mut place);
    celbpf_gate_free(rt.alloc(), &mut place);
    let status = celbpf_gate_decide(
        rt.alloc(),
        &mut place,
        REVIEW,
        b"",
        b"",
        STEPS,
        &mut room,
        &mut len,
    );
    assert!(rt; (status, len) == (10, 0));
    drop(place.into_gate());
}

#[test]
fn a_review_needs_room(rt: HostRuntime) {
    let mut room = [7u8; 8];
    let mut len = 0;
    let status = celbpf_review(
        rt.alloc(),
        POLICY,
        REVIEW,
        b"",
        b"",
        STEPS,
        &mut room,
        &mut len,
    );
    assert!(rt; (status, len) == (8, RESPONSE.len()));
    assert!(rt; room == [7u8; 8]);
}

#[test]
fn an_image_is_compiled(rt: HostRuntime) {
    let mut room = [0u8; 4096];
    let mut len = 0;
    let status = celbpf_compile(rt.alloc(), POLICY, &mut room, &mut len);
    assert!(rt; (status, celbpf_version()) == (0, 1));
    assert!(rt; room.starts_with(b"CELBPF02"));
}

/// A policy in the wide language, and its response to a review without `n`.
const WIDE: &[u8] =
    br#"{"apiVersion":"admissionregistration.k8s.io/v1","kind":"ValidatingAdmissionPolicy","spec":{"validations":[{"expression":"object.?m.orValue(3) < 3"}]}}"#;

const WIDE_RESPONSE: &[u8] =
    br#"{"apiVersion":"admission.k8s.io/v1","kind":"AdmissionReview","response":{"allowed":false,"status":{"code":422,"message":"failed expression: object.?m.orValue(3) < 3","reason":"Invalid"},"uid":"u1"}}"#;

/// Its message expression has no translation.
const UNTOLD: &[u8] =
    br#"{"apiVersion":"admissionregistration.k8s.io/v1","kind":"ValidatingAdmissionPolicy","spec":{"validations":[{"expression":"true","messageExpression":"url('a')"}]}}"#;

#[test]
fn a_wide_gate_decides(rt: HostRuntime) {
    let mut place = GatePlace::empty(rt.alloc());
    let mut room = [0u8; 256];
    let mut len = 9;
    let made = celbpf_gate_new(rt.alloc(), &mut place, WIDE, &mut room, &mut len);
    assert!(rt; made == 3);
    assert!(rt; room.get(..len) == Some(&b"celbpf: K6 validation 0 P4 at 7\n"[..]));
    let made = celbpf_gate_new_wide(rt.alloc(), &mut place, WIDE, &mut room, &mut len);
    assert!(rt; (made, len) == (0, 0));
    let status = celbpf_gate_decide(
        rt.alloc(),
        &mut place,
        REVIEW,
        b"",
        b"",
        STEPS,
        &mut room,
        &mut len,
    );
    assert!(rt; status == 1);
    assert!(rt; room.get(..len) == Some(WIDE_RESPONSE));
    let made = celbpf_gate_new_wide(rt.alloc(), &mut place, UNTOLD, &mut room, &mut len);
    assert!(rt; made == 3);
    assert!(rt; room.get(..len) == Some(&b"celbpf: K6 message 0 W5 url\n"[..]));
    drop(place.into_gate());
}

#[test]
fn a_review_is_decided_by_a_wide_policy(rt: HostRuntime) {
    let mut room = [0u8; 256];
    let mut len = 0;
    let status = celbpf_review_wide(
        rt.alloc(),
        WIDE,
        REVIEW,
        b"",
        b"",
        STEPS,
        1000,
        &mut room,
        &mut len,
    );
    assert!(rt; status == 1);
    assert!(rt; room.get(..len) == Some(WIDE_RESPONSE));
    let status = celbpf_review_wide(
        rt.alloc(),
        b"{}",
        REVIEW,
        b"",
        b"",
        STEPS,
        1000,
        &mut room,
        &mut len,
    );
    assert!(rt; status == 2);
    assert!(rt; room.get(..len) == Some(&b"celbpf: K2\n"[..]));
}
