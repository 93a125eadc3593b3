//! Lines that are answered as a cluster does.
ghost use Rattle.std.specs.Prelude.{◌≡◌, IfOk, option_map};
ghost use Rattle.policy_glue.specs.OneImage.{OneImage};
ghost use Rattle.gatekeeper_runner.specs.Refusals.{too_long_text};
ghost use Rattle.gatekeeper_runner.specs.Cluster.Lines.{decision_text, no_review_text, DecidesAsCluster};

use crate::cluster::keeper::ClusterKeeper;
use crate::refused::Refused;
use crate::refusing::{line_refusal_text, too_long_text};
use admission::RunError;
use line_answers::Decider;
use std::alloc::{AllocError, Global};

impl<'s, 'a> Decider for ClusterKeeper<'s, 'a> {
    ghost decides = { λ keeper line text. DecidesAsCluster OneImage keeper line text };

    ghost refuses = { λ _. too_long_text };

    fn answer(&self, line: &[u8]) -> Result<Vec<u8>, AllocError> {
        let decision = self.cluster.decide(line, self.limits)?;
        decision_text(self.alloc, decision, line)
    }

    fn refusal(&self) -> Result<Vec<u8>, AllocError> {
        too_long_text(self.alloc)
    }
}

/// The text of what is decided, or the refusal of a line that is not a review.
fn decision_text(
    alloc: Global,
    decision: Option<Vec<u8>>,
    line: &[u8],
) -> Result<Vec<u8>, AllocError>
    ensures { IfOk result (λ text. text.items ≡ decision_text line.now (option_map (λ b. b.items) decision)) }
{
    match decision {
        Some(text) => Ok(text),
        None => no_review_text(alloc, line),
    }
}

/// The refusal of a line that is not a review.
fn no_review_text(alloc: Global, line: &[u8]) -> Result<Vec<u8>, AllocError>
    ensures { IfOk result (λ text. text.items ≡ no_review_text line.now) }
{
    let refused = Refused {
        error: RunError::ReviewRefused,
        policy: None,
    };
    line_refusal_text(alloc, &refused, line)
}
