//! Labels and requirements that the API server does not store.

use label_selectors::{SelectorError, check_label, check_requirement};
use std::alloc::{AllocError, Global};
use std::test::Fail;

/// Keys and values of labels, with their errors.
const LABELS: [(&str, &str, Option<SelectorError>); 5] = [
    ("app", "web", None),
    ("app", "", None),
    ("", "web", Some(SelectorError::InvalidKey)),
    ("a b", "a b", Some(SelectorError::InvalidKey)),
    ("app", "a b", Some(SelectorError::InvalidValue)),
];

/// Keys, operators and values of requirements, with their errors.
#[rattlefmt::skip]
const REQUIREMENTS: [(&str, &str, &[&str], Option<SelectorError>); 7] = [
    ("app", "In", &["web", "db"], None),
    ("app", "Exists", &[], None),
    ("a b", "Near", &[], Some(SelectorError::InvalidKey)),
    ("app", "Near", &["web"], Some(SelectorError::InvalidOperator)),
    ("app", "NotIn", &[], Some(SelectorError::InvalidOperator)),
    ("app", "DoesNotExist", &["web"], Some(SelectorError::InvalidOperator)),
    ("app", "In", &["web", "a b"], Some(SelectorError::InvalidValue)),
];

/// Why a requirement is refused.
fn refusal(
    alloc: Global,
    key: &str,
    operator: &str,
    values: &[&str],
) -> Result<Option<SelectorError>, AllocError> {
    let mut owned = Vec::new(alloc);
    for value in values {
        owned.push(String::from_str(alloc, value)?)?;
    }
    Ok(check_requirement(key, operator, owned.as_slice()).err())
}

#[test]
fn refuses_labels(rt: HostRuntime) {
    for (key, value, error) in &LABELS {
        assert!(rt; check_label(key, value).err() == *error, "{key}={value}");
    }
}

#[test]
fn refuses_requirements(rt: HostRuntime) -> Result<(), Fail> {
    for (key, operator, values, error) in &REQUIREMENTS {
        let found = refusal(rt.alloc(), key, operator, values)?;
        assert!(rt; found == *error, "{key} {operator}");
    }
    Ok(())
}
