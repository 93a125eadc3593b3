//! The operations of requests.
ghost use Rattle.std.specs.Prelude.{◌≡◌};
ghost use Rattle.admission_match.specs.Matching.{writes};
ghost use Rattle.admission_match.specs.Requests.{operation_name};

/// What a request does (Operation, `admission.k8s.io/v1`).
#[derive(Clone, Copy, Debug, PartialEq, Eq)]
pub enum Operation {
    Create,
    Update,
    Delete,
    Connect,
}

impl Operation {
    /// The name of the operation, as rules and reviews write it.
    pub fn name(&self) -> &'static str
        ensures { result.now ≡ operation_name self.now }
    {
        match self {
            Operation::Create => "CREATE",
            Operation::Update => "UPDATE",
            Operation::Delete => "DELETE",
            Operation::Connect => "CONNECT",
        }
    }

    /// Whether the operation writes an object.
    pub(crate) fn writes(self) -> bool
        ensures { result ≡ writes self }
    {
        match self {
            Operation::Create | Operation::Update => true,
            Operation::Delete | Operation::Connect => false,
        }
    }
}
