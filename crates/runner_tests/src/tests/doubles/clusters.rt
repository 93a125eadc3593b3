//! States of clusters in files.

use host::{FileFailure, FileReadError, ReadableFiles};
use std::alloc::Global;

/// Two bound policies: `p` denies more than 3 replicas, `q` warns of an odd number of them. The
/// first list has the policies, the second the bindings.
const POLICIES: &str = r#"{"apiVersion":"v1","kind":"List","items":[
{"apiVersion":"v1","kind":"Namespace","metadata":{"name":"prod"}},
{"apiVersion":"admissionregistration.k8s.io/v1","kind":"ValidatingAdmissionPolicy","metadata":{"name":"q"},"spec":{"matchConstraints":{"resourceRules":[{"apiGroups":["apps"],"apiVersions":["v1"],"operations":["CREATE"],"resources":["deployments"]}]},"validations":[{"expression":"object.spec.replicas % 2 == 0","message":"odd"}]}},
{"apiVersion":"admissionregistration.k8s.io/v1","kind":"ValidatingAdmissionPolicy","metadata":{"name":"p"},"spec":{"matchConstraints":{"resourceRules":[{"apiGroups":["apps"],"apiVersions":["v1"],"operations":["CREATE"],"resources":["deployments"]}]},"validations":[{"expression":"object.spec.replicas <= 3"}]}}]}"#;

const BINDINGS: &str = r#"{"apiVersion":"v1","kind":"List","items":[
{"apiVersion":"admissionregistration.k8s.io/v1","kind":"ValidatingAdmissionPolicyBinding","metadata":{"name":"b"},"spec":{"policyName":"p","validationActions":["Deny"]}},
{"apiVersion":"admissionregistration.k8s.io/v1","kind":"ValidatingAdmissionPolicyBinding","metadata":{"name":"c"},"spec":{"policyName":"q","validationActions":["Warn"]}}]}"#;

/// An item without a kind.
const NO_ITEM: &str =
    r#"{"apiVersion":"v1","kind":"List","items":[{"apiVersion":"v1","kind":"Namespace","metadata":{"name":"prod"}},{"apiVersion":"v1","metadata":{"name":"x"}}]}"#;

const DOUBLE: &str =
    r#"{"apiVersion":"v1","kind":"List","items":[{"apiVersion":"v1","kind":"Namespace","metadata":{"name":"prod"}},{"apiVersion":"v1","kind":"Namespace","metadata":{"name":"prod"}}]}"#;

const NO_NAMESPACE: &str = r#"{"apiVersion":"v1","kind":"List","items":[]}"#;

/// A binding that names no policy.
const NO_BINDING: &str =
    r#"{"apiVersion":"v1","kind":"List","items":[{"apiVersion":"v1","kind":"Namespace","metadata":{"name":"prod"}},
{"apiVersion":"admissionregistration.k8s.io/v1","kind":"ValidatingAdmissionPolicyBinding","metadata":{"name":"b"},"spec":{"validationActions":["Deny"]}}]}"#;

/// A binding without actions.
const NO_ACTIONS: &str =
    r#"{"apiVersion":"v1","kind":"List","items":[{"apiVersion":"v1","kind":"Namespace","metadata":{"name":"prod"}},
{"apiVersion":"admissionregistration.k8s.io/v1","kind":"ValidatingAdmissionPolicyBinding","metadata":{"name":"b"},"spec":{"policyName":"p","validationActions":[]}}]}"#;

/// A policy without constraints, and its binding.
const NO_CONSTRAINTS: &str =
    r#"{"apiVersion":"v1","kind":"List","items":[{"apiVersion":"v1","kind":"Namespace","metadata":{"name":"prod"}},
{"apiVersion":"admissionregistration.k8s.io/v1","kind":"ValidatingAdmissionPolicy","metadata":{"name":"p"},"spec":{"validations":[{"expression":"true"}]}},
{"apiVersion":"admissionregistration.k8s.io/v1","kind":"ValidatingAdmissionPolicyBinding","metadata":{"name":"b"},"spec":{"policyName":"p","validationActions":["Deny"]}}]}"#;

/// A policy without validations, and its binding.
const NO_VALIDATIONS: &str =
    r#"{"apiVersion":"v1","kind":"List","items":[{"apiVersion":"v1","kind":"Namespace","metadata":{"name":"prod"}},
{"apiVersion":"admissionregistration.k8s.io/v1","kind":"ValidatingAdmissionPolicy","metadata":{"name":"p"},"spec":{"matchConstraints":{"resourceRules":[{"apiGroups":["apps"],"apiVersions":["v1"],"operations":["CREATE"],"resources":["deployments"]}]},"validations":[]}},
{"apiVersion":"admissionregistration.k8s.io/v1","kind":"ValidatingAdmissionPolicyBinding","metadata":{"name":"b"},"spec":{"policyName":"p","validationActions":["Deny"]}}]}"#;

/// A policy with a match condition that names the namespace, and its binding.
const CONDITION: &str =
    r#"{"apiVersion":"v1","kind":"List","items":[{"apiVersion":"v1","kind":"Namespace","metadata":{"name":"prod"}},
{"apiVersion":"admissionregistration.k8s.io/v1","kind":"ValidatingAdmissionPolicy","metadata":{"name":"p"},"spec":{"matchConstraints":{"resourceRules":[{"apiGroups":["apps"],"apiVersions":["v1"],"operations":["CREATE"],"resources":["deployments"]}]},"matchConditions":[{"name":"c","expression":"namespaceObject == null"}],"validations":[{"expression":"namespaceObject == null","message":"odd"}]}},
{"apiVersion":"admissionregistration.k8s.io/v1","kind":"ValidatingAdmissionPolicyBinding","metadata":{"name":"b"},"spec":{"policyName":"p","validationActions":["Deny"]}}]}"#;

/// A policy with params of a kind that is not listed, and its binding.
const NO_KIND: &str =
    r#"{"apiVersion":"v1","kind":"List","items":[{"apiVersion":"v1","kind":"Namespace","metadata":{"name":"prod"}},
{"apiVersion":"admissionregistration.k8s.io/v1","kind":"ValidatingAdmissionPolicy","metadata":{"name":"p"},"spec":{"matchConstraints":{"resourceRules":[{"apiGroups":["apps"],"apiVersions":["v1"],"operations":["CREATE"],"resources":["deployments"]}]},"paramKind":{"apiVersion":"example.com/v1","kind":"Limit"},"validations":[{"expression":"true"}]}},
{"apiVersion":"admissionregistration.k8s.io/v1","kind":"ValidatingAdmissionPolicyBinding","metadata":{"name":"b"},"spec":{"policyName":"p","validationActions":["Deny"]}}]}"#;

/// A policy in the wide language, whose second message expression is refused, and its binding.
const WIDE: &str =
    r#"{"apiVersion":"v1","kind":"List","items":[{"apiVersion":"v1","kind":"Namespace","metadata":{"name":"prod"}},
{"apiVersion":"admissionregistration.k8s.io/v1","kind":"ValidatingAdmissionPolicy","metadata":{"name":"p"},"spec":{"matchConstraints":{"resourceRules":[{"apiGroups":["apps"],"apiVersions":["v1"],"operations":["CREATE"],"resources":["deployments"]}]},"validations":[{"expression":"object.?spec.?replicas.orValue(1) <= 9"},{"expression":"object.spec.?replicas.orValue(1) <= 3","messageExpression":"string(url('a'))"}]}},
{"apiVersion":"admissionregistration.k8s.io/v1","kind":"ValidatingAdmissionPolicyBinding","metadata":{"name":"b"},"spec":{"policyName":"p","validationActions":["Deny"]}}]}"#;

/// The lists of some clusters, each by the name of its file. `secret`, `folder` and `broken` are not read.
#[derive(Drop)]
pub struct Clusters;

impl ReadableFiles for Clusters {
    ghost use Rattle.std.specs.Prelude.{None};

    ghost known = { λ _. None };

    fn read_file(&mut self, alloc: Global, name: &str) -> Result<Vec<u8>, FileReadError> {
        let text = match name {
            "policies" => POLICIES,
            "bindings" => BINDINGS,
            "none" => "no",
            "namespace" => r#"{"apiVersion":"v1","kind":"Namespace","metadata":{"name":"prod"}}"#,
            "no-item" => NO_ITEM,
            "double" => DOUBLE,
            "no-namespace" => NO_NAMESPACE,
            "no-binding" => NO_BINDING,
            "no-actions" => NO_ACTIONS,
            "no-constraints" => NO_CONSTRAINTS,
            "no-validations" => NO_VALIDATIONS,
            "condition" => CONDITION,
            "no-kind" => NO_KIND,
            "wide" => WIDE,
            "secret" => return Err(FileReadError::Failed(FileFailure::PermissionDenied)),
            "folder" => return Err(FileReadError::Failed(FileFailure::IsADirectory)),
            "broken" => return Err(FileReadError::Failed(FileFailure::Other)),
            _ => return Err(FileReadError::Failed(FileFailure::NotFound)),
        };
        Ok(Vec::from_slice(alloc, text.as_bytes())?)
    }
}
