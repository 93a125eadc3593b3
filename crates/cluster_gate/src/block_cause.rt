//! Why policies are blocked.
ghost use Rattle.std.specs.Prelude.{◌≡◌};
ghost use Rattle.cluster_gate.specs.Dispatch.{block_refusal};
ghost use Rattle.cluster_gate.specs.Gates.{block_of};

use admission::{PolicyRefusal, WideRefusal};
use cluster_response::ClusterRefusal;

/// Why a policy decides none of the requests that its constraints match. If several causes hold,
/// the first of this list is reported.
#[derive(Debug, Drop)]
pub enum BlockCause {
    /// The policy is refused.
    Refused(PolicyRefusal),
    /// The policy, which is read in the wide language, is refused.
    RefusedWide(WideRefusal),
    /// A match condition names `namespaceObject`, which is null there in an API server.
    NamesNamespace,
    /// Params of its kind cannot be found.
    UnknownParamKind,
}

impl BlockCause {
    /// The refusal that reports the policy.
    pub fn refusal(&self) -> ClusterRefusal
        ensures { result ≡ block_refusal (block_of self.now) }
    {
        match self {
            BlockCause::Refused(_) | BlockCause::RefusedWide(_) | BlockCause::NamesNamespace => {
                ClusterRefusal::PolicyRefused
            }
            BlockCause::UnknownParamKind => ClusterRefusal::UnknownParamKind,
        }
    }
}
