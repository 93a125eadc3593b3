//! Rows of each call. The texts are responses that were worked by hand, and those of the pages on the
//! programs.

use crate::images::{celbpf_page_debug, celbpf_page_list};
use crate::policies::{
    celbpf_page_compile, celbpf_page_review, celbpf_page_translate, celbpf_page_version,
};
use std::alloc::Global;
use std::process::Abort;

/// More steps than a policy of these rows needs.
const STEPS: u64 = 10_000;

const REVIEW: &[u8] =
    br#"{"apiVersion":"admission.k8s.io/v1","kind":"AdmissionReview","request":{"uid":"u1","object":{"n":3}}}"#;

const WIDE: &[u8] =
    br#"{"apiVersion":"admissionregistration.k8s.io/v1","kind":"ValidatingAdmissionPolicy","spec":{"validations":[{"expression":"object.?m.orValue(3) < 3"}]}}"#;

const PARAMS: &[u8] =
    br#"{"apiVersion":"admissionregistration.k8s.io/v1","kind":"ValidatingAdmissionPolicy","spec":{"validations":[{"expression":"params.most > namespaceObject.least"}]}}"#;

const LEAST: &[u8] =
    br#"{"apiVersion":"admissionregistration.k8s.io/v1","kind":"ValidatingAdmissionPolicy","spec":{"validations":[{"expression":"true"}]}}"#;

/// Its message expression has no translation.
const UNTOLD: &[u8] =
    br#"{"apiVersion":"admissionregistration.k8s.io/v1","kind":"ValidatingAdmissionPolicy","spec":{"validations":[{"expression":"true","messageExpression":"url('a')"}]}}"#;

const DENIED: &[u8] =
    br#"{"apiVersion":"admission.k8s.io/v1","kind":"AdmissionReview","response":{"allowed":false,"status":{"code":422,"message":"failed expression: object.?m.orValue(3) < 3","reason":"Invalid"},"uid":"u1"}}"#;

const ALLOWED: &[u8] =
    br#"{"apiVersion":"admission.k8s.io/v1","kind":"AdmissionReview","response":{"allowed":true,"uid":"u1"}}"#;

const TRANSLATED: &[u8] =
    b"{\"apiVersion\":\"admissionregistration.k8s.io/v1\",\"kind\":\"ValidatingAdmissionPolicy\",\"metadata\":{\"annotations\":{\"validation.0\":\"true\"}},\"spec\":{\"failurePolicy\":\"Fail\",\"validations\":[{\"expression\":\"true\",\"reason\":\"Invalid\"}]}}\n";

/// The image of four instructions, of which a jump skips one.
const FIVE: &[u8] =
    b"CELBPF01\x04\0\0\0\0\0\0\0\xb7\0\0\0\x01\0\0\0\x05\0\x01\0\0\0\0\0\xb7\0\0\0\x02\0\0\0\x95\0\0\0\0\0\0\0";

/// What a call returns and writes.
struct Told {
    name: &'static str,
    status: u32,
    text: &'static [u8],
}

/// A review under a policy, and the bytes that it may read.
struct Asked {
    policy: &'static [u8],
    namespace: &'static [u8],
    params: &'static [u8],
    reads: u64,
    told: Told,
}

const REVIEWS: [Asked; 4] = [
    Asked {
        policy: WIDE,
        namespace: b"",
        params: b"",
        reads: 1000,
        told: Told {
            name: "denied",
            status: 1,
            text: DENIED,
        },
    },
    Asked {
        policy: PARAMS,
        namespace: br#"{"least":1}"#,
        params: br#"{"most":2}"#,
        reads: 1000,
        told: Told {
            name: "params are more than the namespace",
            status: 0,
            text: ALLOWED,
        },
    },
    Asked {
        policy: WIDE,
        namespace: b"",
        params: b"",
        reads: 0,
        told: Told {
            name: "out of reads",
            status: 12,
            text: b"celbpf: N7\n",
        },
    },
    Asked {
        policy: b"{}",
        namespace: b"",
        params: b"",
        reads: 1000,
        told: Told {
            name: "no policy",
            status: 2,
            text: b"celbpf: K2\n",
        },
    },
];

/// A translation or a listing of a document.
struct Shown {
    document: &'static [u8],
    told: Told,
}

const TRANSLATIONS: [Shown; 2] = [
    Shown {
        document: LEAST,
        told: Told {
            name: "least policy",
            status: 0,
            text: TRANSLATED,
        },
    },
    Shown {
        document: UNTOLD,
        told: Told {
            name: "message without a translation",
            status: 3,
            text: b"celbpf: K6 message 0 W5 url\n",
        },
    },
];

const LISTINGS: [Shown; 2] = [
    Shown {
        document: FIVE,
        told: Told {
            name: "five",
            status: 0,
            text: b"mov64 r0, 1\nja +1\nmov64 r0, 2\nexit\n",
        },
    },
    Shown {
        document: b"CELBPF0",
        told: Told {
            name: "short file",
            status: 13,
            text: b"celbpf: L1\n",
        },
    },
];

/// A session on the image of four instructions.
struct Debugged {
    image: &'static [u8],
    review: &'static [u8],
    params: &'static [u8],
    commands: &'static [u8],
    told: Told,
}

const SESSIONS: [Debugged; 4] = [
    Debugged {
        image: FIVE,
        review: REVIEW,
        params: br#"{"most":2}"#,
        commands: b"v 4\nv 6\nv 7\ns 3\nq\nr\n",
        told: Told {
            name: "values and a move",
            status: 0,
            text: b"value 4 {\"n\":3}\nvalue 6 {\"most\":2}\nvalue 7 null\nstep 3 pc 3 exited 0x0000000000000001\n",
        },
    },
    Debugged {
        image: b"CELBPF0",
        review: b"{}",
        params: b"",
        commands: b"s 1\n",
        told: Told {
            name: "no image",
            status: 13,
            text: b"celbpf: L1\n",
        },
    },
    Debugged {
        image: FIVE,
        review: b"{}",
        params: b"[",
        commands: b"s 1\n",
        told: Told {
            name: "no review",
            status: 4,
            text: b"celbpf: N2\n",
        },
    },
    Debugged {
        image: FIVE,
        review: b"",
        params: b"[",
        commands: b"s 1\n",
        told: Told {
            name: "params are no document",
            status: 5,
            text: b"celbpf: N3\n",
        },
    },
];

/// Whether a call told this.
fn is_told(told: &Told, status: u32, room: &[u8], len: usize) -> bool {
    status == told.status && room.get(..len) == Some(told.text)
}

fn is_reviewed(alloc: Global, row: &Asked) -> bool {
    let (policy, namespace, params) = (row.policy, row.namespace, row.params);
    let mut room = [0u8; 256];
    let mut len = 9;
    let status = celbpf_page_review(
        alloc, policy, REVIEW, namespace, params, STEPS, row.reads, &mut room, &mut len,
    );
    is_told(&row.told, status, &room, len)
}

fn is_translated(alloc: Global, row: &Shown) -> bool {
    let mut room = [0u8; 256];
    let mut len = 9;
    let status = celbpf_page_translate(alloc, row.document, &mut room, &mut len);
    is_told(&row.told, status, &room, len)
}

fn is_listed(alloc: Global, row: &Shown) -> bool {
    let mut room = [0u8; 256];
    let mut len = 9;
    let status = celbpf_page_list(alloc, row.document, &mut room, &mut len);
    is_told(&row.told, status, &room, len)
}

fn is_debugged(alloc: Global, row: &Debugged) -> bool {
    let (image, review, params) = (row.image, row.review, row.params);
    let mut room = [0u8; 256];
    let mut len = 9;
    let status = celbpf_page_debug(
        alloc,
        image,
        review,
        b"",
        params,
        row.commands,
        &mut room,
        &mut len,
    );
    is_told(&row.told, status, &room, len)
}

fn wrong_review(alloc: Global) -> Option<&'static str> {
    for row in &REVIEWS {
        if !is_reviewed(alloc, row) {
            return Some(row.told.name);
        }
    }
    None
}

fn wrong_translation(alloc: Global) -> Option<&'static str> {
    for row in &TRANSLATIONS {
        if !is_translated(alloc, row) {
            return Some(row.told.name);
        }
    }
    None
}

fn wrong_listing(alloc: Global) -> Option<&'static str> {
    for row in &LISTINGS {
        if !is_listed(alloc, row) {
            return Some(row.told.name);
        }
    }
    None
}

fn wrong_session(alloc: Global) -> Option<&'static str> {
    for row in &SESSIONS {
        if !is_debugged(alloc, row) {
            return Some(row.told.name);
        }
    }
    None
}

/// Asserts that there is no first row that is wrong, which would have this name.
fn assert_none(rt: &impl Abort, wrong: Option<&str>) {
    assert!(rt; matches!(wrong, None), "row {wrong:?}");
}

#[test]
fn reviews_are_decided(rt: HostRuntime) {
    assert_none(&rt, wrong_review(rt.alloc()));
}

#[test]
fn policies_are_translated(rt: HostRuntime) {
    assert_none(&rt, wrong_translation(rt.alloc()));
}

#[test]
fn images_are_listed(rt: HostRuntime) {
    assert_none(&rt, wrong_listing(rt.alloc()));
}

#[test]
fn runs_are_debugged(rt: HostRuntime) {
    assert_none(&rt, wrong_session(rt.alloc()));
}

#[test]
fn a_policy_is_compiled(rt: HostRuntime) {
    let mut room = [7u8; 8];
    let mut len = 0;
    let status = celbpf_page_compile(rt.alloc(), LEAST, &mut room, &mut len);
    assert!(rt; (status, room, celbpf_page_version()) == (8, [7u8; 8], 1));
    assert!(rt; len > 8);
}
