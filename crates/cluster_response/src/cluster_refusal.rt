//! Why a policy does not decide a request.
ghost use Rattle.std.specs.Prelude.{◌≡◌};

/// Why a policy does not decide a request.
#[derive(Clone, Copy, Debug, PartialEq, Eq)]
pub enum ClusterRefusal {
    /// The review is refused as a root of the policy's program.
    ReviewRefused,
    /// The namespace or the params are refused as a root.
    NamespaceOrParamsRefused,
    /// The program of the policy did not end within its steps.
    OutOfSteps,
    /// The program of the policy was stopped at a limit.
    OverLimit,
    /// The next helper call of the policy's program would read more than the limit of reads allows.
    OutOfReads,
    /// Whether the request matches depends on what the cluster serves.
    UnknownMatch,
    /// The policy is not compiled.
    PolicyRefused,
    /// The policy's kind of params is not known.
    UnknownParamKind,
}

impl ClusterRefusal {
    ghost use Rattle.cluster_response.specs.Refusals.{cluster_refusal_code};

    /// The code of the refusal: `N2` to `N7`, `C7` or `C8`.
    pub fn code(&self) -> &'static str
        ensures { result.now ≡ cluster_refusal_code self.now }
    {
        match self {
            ClusterRefusal::ReviewRefused => "N2",
            ClusterRefusal::NamespaceOrParamsRefused => "N3",
            ClusterRefusal::OutOfSteps => "N4",
            ClusterRefusal::OverLimit => "N5",
            ClusterRefusal::OutOfReads => "N7",
            ClusterRefusal::UnknownMatch => "N6",
            ClusterRefusal::PolicyRefused => "C7",
            ClusterRefusal::UnknownParamKind => "C8",
        }
    }
}
