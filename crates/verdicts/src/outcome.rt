//! Outcomes of policies.

ghost use Rattle.std.specs.Prelude.{◌≡◌};
ghost use Rattle.verdicts.specs.Layout.{outcome_of};

use crate::verdict_words::{ADMITTED, DENIED, SKIPPED};

/// What a policy decides on a request. (Kubernetes, ValidatingAdmissionPolicy)
#[derive(Clone, Copy, Debug, PartialEq, Eq)]
pub enum Outcome {
    /// A condition is false, or is in error under `Ignore`.
    Skipped,
    /// No condition is false and one is in error, under `Fail`.
    Rejected,
    /// A validation denies.
    Denied,
    /// No validation denies.
    Admitted,
}

impl Outcome {
    /// The outcome for this word of a verdict. A word that is not an outcome rejects the request.
    pub fn of_word(word: u64) -> Outcome
        ensures { result ≡ outcome_of word }
    {
        match word {
            SKIPPED => Outcome::Skipped,
            DENIED => Outcome::Denied,
            ADMITTED => Outcome::Admitted,
            _ => Outcome::Rejected,
        }
    }
}
