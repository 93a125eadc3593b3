//! Steps of policies.

use cluster_state::{Binding, Document};

/// A step of a policy with a request.
#[derive(Debug, Drop)]
pub enum Step<'s, 'a> {
    /// A configuration error denies the request: of the binding of this name.
    Denial {
        binding: Option<&'a str>,
        message: String,
    },
    /// Whether the policy or the binding matches is not known.
    UnknownMatch,
    /// The policy is evaluated with these params and this namespace, each null if it is none, and
    /// the binding tells its findings.
    Evaluation {
        binding: &'s Binding<'a>,
        params: Option<Document<'a>>,
        namespace: Option<Document<'a>>,
    },
    /// The namespace of the request is not found, which ends the dispatch.
    NamespaceNotFound,
}
