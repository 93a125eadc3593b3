//! Policies in files.

use host::{FileFailure, FileReadError, ReadableFiles};
use std::alloc::{AllocError, Global};

const FEW: &str =
    r#"{"apiVersion":"admissionregistration.k8s.io/v1","kind":"ValidatingAdmissionPolicy","spec":{"validations":[{"expression":"object.spec.replicas <= 3"}]}}"#;

const LENIENT: &str =
    r#"{"apiVersion":"admissionregistration.k8s.io/v1","kind":"ValidatingAdmissionPolicy","spec":{"failurePolicy":"Ignore","validations":[{"expression":"object.spec.replicas <= 3"}]}}"#;

const EVEN: &str =
    r#"{"apiVersion":"admissionregistration.k8s.io/v1","kind":"ValidatingAdmissionPolicy","spec":{"validations":[{"expression":"object.spec.replicas % 2 == 0","message":"odd","reason":"Forbidden"}]}}"#;

/// Policies in the wide language.
const OPTIONAL: &str =
    r#"{"apiVersion":"admissionregistration.k8s.io/v1beta1","kind":"ValidatingAdmissionPolicy","metadata":{"name":"optional"},"spec":{"validations":[{"expression":" object.spec.?replicas.orValue(1) <= 3 ","message":null}]},"status":{}}"#;

const UNKNOWN: &str =
    r#"{"apiVersion":"admissionregistration.k8s.io/v1","kind":"ValidatingAdmissionPolicy","spec":{"validations":[{"expression":"true"},{"expression":"url('a') == null"}]}}"#;

const NO_VALUE: &str =
    r#"{"apiVersion":"admissionregistration.k8s.io/v1","kind":"ValidatingAdmissionPolicy","spec":{"variables":[{"name":"a","expression":"object.?a"}],"validations":[{"expression":"variables.a"}]}}"#;

const BYTES: &str =
    r#"{"apiVersion":"admissionregistration.k8s.io/v1","kind":"ValidatingAdmissionPolicy","spec":{"validations":[{"expression":"object.a == b'a'"}]}}"#;

/// Its message expression has no translation.
const UNTOLD: &str =
    r#"{"apiVersion":"admissionregistration.k8s.io/v1","kind":"ValidatingAdmissionPolicy","spec":{"failurePolicy":"Ignore","matchConditions":[{"name":"c","expression":"true"}],"variables":[{"name":"v","expression":"object.?a"}],"validations":[{"expression":"false","message":" \"no\" ","messageExpression":"url('a')","reason":"Forbidden"},{"expression":"true","messageExpression":"'b'"}]}}"#;

/// A loop with 4,096 iterations of at least one step each.
const SLOW: &str =
    r#"{"apiVersion":"admissionregistration.k8s.io/v1","kind":"ValidatingAdmissionPolicy","metadata":{"name":"slow-one"},"spec":{"failurePolicy":"Ignore","validations":[{"expression":"[1,2,3,4,5,6,7,8,9,10,11,12,13,14,15,16].all(x, [1,2,3,4,5,6,7,8,9,10,11,12,13,14,15,16].all(y, [1,2,3,4,5,6,7,8,9,10,11,12,13,14,15,16].all(z, x + y + z > 0)))"}]}}"#;

/// A list in a list, 300 levels deep: `a` has 50, and each later variable 50 more. A list has at most
/// 255.
pub const DEEP: &str =
    r#"{"apiVersion":"admissionregistration.k8s.io/v1","kind":"ValidatingAdmissionPolicy","metadata":{"name":"p"},"spec":{"matchConstraints":{"resourceRules":[{"apiGroups":["*"],"apiVersions":["v1"],"operations":["*"],"resources":["*"]}]},"variables":[
{"name":"a","expression":"[[[[[[[[[[[[[[[[[[[[[[[[[[[[[[[[[[[[[[[[[[[[[[[[[[1]]]]]]]]]]]]]]]]]]]]]]]]]]]]]]]]]]]]]]]]]]]]]]]]]]"},
{"name":"b","expression":"[[[[[[[[[[[[[[[[[[[[[[[[[[[[[[[[[[[[[[[[[[[[[[[[[[variables.a]]]]]]]]]]]]]]]]]]]]]]]]]]]]]]]]]]]]]]]]]]]]]]]]]]"},
{"name":"c","expression":"[[[[[[[[[[[[[[[[[[[[[[[[[[[[[[[[[[[[[[[[[[[[[[[[[[variables.b]]]]]]]]]]]]]]]]]]]]]]]]]]]]]]]]]]]]]]]]]]]]]]]]]]"},
{"name":"d","expression":"[[[[[[[[[[[[[[[[[[[[[[[[[[[[[[[[[[[[[[[[[[[[[[[[[[variables.c]]]]]]]]]]]]]]]]]]]]]]]]]]]]]]]]]]]]]]]]]]]]]]]]]]"},
{"name":"e","expression":"[[[[[[[[[[[[[[[[[[[[[[[[[[[[[[[[[[[[[[[[[[[[[[[[[[variables.d]]]]]]]]]]]]]]]]]]]]]]]]]]]]]]]]]]]]]]]]]]]]]]]]]]"},
{"name":"f","expression":"[[[[[[[[[[[[[[[[[[[[[[[[[[[[[[[[[[[[[[[[[[[[[[[[[[variables.e]]]]]]]]]]]]]]]]]]]]]]]]]]]]]]]]]]]]]]]]]]]]]]]]]]"}],
"validations":[{"expression":"size(variables.f) == 1"}]}}"#;

/// Policies with an expression that is as deep as its name says: what is before the expression, its begin, what follows
/// that, and how often.
#[rattlefmt::skip]
const CHAINS: [(&str, &str, &str, &str, usize); 8] = [
    ("513-selections", "", "object", ".a", 512),
    ("2048-selections", "", "object", ".a", 2047),
    ("513-sums", "", "0", "+0", 512),
    ("513-indexes", "", "object", "[0]", 512),
    ("513-unknown", "", "nothing", ".a", 512),
    ("513-has", "", "has(object)", ".a", 512),
    ("513-bytes", "", "b''", ".a", 512),
    ("513-message", r#"true","messageExpression":""#, "object", ".a", 512),
];

/// The policy of this name with a deep expression, if there is one.
fn deep_policy(alloc: Global, name: &str) -> Result<Option<Vec<u8>>, AllocError> {
    for (other, before, begin, part, count) in &CHAINS {
        if *other == name {
            let mut text = String::from_str(
                alloc,
                r#"{"apiVersion":"admissionregistration.k8s.io/v1","kind":"ValidatingAdmissionPolicy","spec":{"validations":[{"expression":""#,
            )?;
            text.push_str(before)?;
            text.push_str(begin)?;
            text.push_str(part.repeat(alloc, *count)?.as_str())?;
            text.push_str("\"}]}}")?;
            return Ok(Some(Vec::from_slice(alloc, text.as_bytes())?));
        }
    }
    Ok(None)
}

/// `few` allows at most 3 replicas, `lenient` too, under Ignore, `even` an even number of them, `slow`
/// any number after many steps, `deep` is stopped, and `none` is not a policy. `optional` is as `few`, in the
/// wide language; `unknown`, `no-value` and `bytes` are refused there, and `untold` for its message. The others have deep expressions.
#[derive(Drop)]
pub struct Policies;

impl ReadableFiles for Policies {
    ghost use Rattle.std.specs.Prelude.{None};

    ghost known = { λ _. None };

    fn read_file(&mut self, alloc: Global, name: &str) -> Result<Vec<u8>, FileReadError> {
        if let Some(text) = deep_policy(alloc, name)? {
            return Ok(text);
        }
        let text = match name {
            "few" => FEW,
            "lenient" => LENIENT,
            "even" => EVEN,
            "slow" => SLOW,
            "deep" => DEEP,
            "optional" => OPTIONAL,
            "unknown" => UNKNOWN,
            "no-value" => NO_VALUE,
            "bytes" => BYTES,
            "untold" => UNTOLD,
            "none" => "no",
            _ => return Err(FileReadError::Failed(FileFailure::NotFound)),
        };
        Ok(Vec::from_slice(alloc, text.as_bytes())?)
    }
}
