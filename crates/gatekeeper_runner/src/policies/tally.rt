//! Collects the results of the policies for one review.
ghost use Rattle.std.specs.Prelude.{◌≡◌, ℕ, List, option_map, IfOk, Err, Ok, Some, []};
ghost use Rattle.admission.specs.Decisions.{said_view};
ghost use Rattle.gatekeeper_runner.specs.Policies.Tally.{AddsResult, IsTallyOf, ending_of};
ghost use Rattle.cluster_response.specs.Firsts.{preferred};
ghost use Rattle.gatekeeper_runner.specs.Policies.Together.{is_by_fail, together_view};
ghost use Rattle.gatekeeper_runner.specs.Refusals.{label_view, refused_view};

use crate::policies::errors::is_memory;
use crate::policies::joining::and_also;
use crate::policy_label::PolicyLabel;
use crate::refused::Refused;
use admission::{Decision, RunError};
use policy_glue::Rejection;
use std::alloc::{AllocError, Global};

/// The results of the policies that were asked so far.
#[derive(Drop)]
pub struct Tally {
    /// The rejections of the policies that decided, joined.
    pub rejection: Option<Rejection>,
    /// The first refusal of a policy under `Fail`, or else the first.
    pub refused: Option<Refused>,
}

impl Tally {
    /// No policy was asked yet.
    pub fn new() -> Tally
        ensures { IsTallyOf [] result }
    {
        Tally {
            rejection: None,
            refused: None,
        }
    }

    /// Adds the result of the policy with this label. The uid of the request does not count here.
    ///
    /// # Errors
    ///
    /// An allocation failed, here or while the policy's program ran.
    pub fn with(
        self,
        alloc: Global,
        label: &PolicyLabel,
        said: Result<Option<Rejection>, RunError>,
    ) -> Result<Tally, AllocError>
        ensures { IfOk result (λ after. (uid : List ℕ) → AddsResult (label_view label.now) (said_view uid said) self after) }
    {
        match said {
            Ok(rejection) => self.with_decision(label, rejection),
            Err(error) => self.with_refusal(alloc, label, error),
        }
    }

    fn with_decision(
        self,
        _label: &PolicyLabel,
        rejection: Option<Rejection>,
    ) -> Result<Tally, AllocError>
        ensures { IfOk result (λ after. (uid : List ℕ) → AddsResult (label_view _label.now) (said_view uid (Ok rejection)) self after) }
    {
        Ok(Tally {
            rejection: and_also(self.rejection, rejection)?,
            refused: self.refused,
        })
    }

    fn with_refusal(
        self,
        alloc: Global,
        label: &PolicyLabel,
        error: RunError,
    ) -> Result<Tally, AllocError>
        ensures { IfOk result (AddsResult (label_view label.now) (Err error) self) }
    {
        if is_memory(error) {
            return Err(AllocError);
        }
        let refused = told_of(alloc, self.refused, label, error)?;
        Ok(Tally {
            rejection: self.rejection,
            refused: Some(refused),
        })
    }

    /// The joint decision on the request with this uid, or the refusal that is told.
    pub fn ending(self, uid: String) -> Result<Decision, Refused>
        ensures { together_view result ≡ ending_of self uid }
    {
        let Tally { rejection, refused } = self;
        match rejection {
            Some(rejection) => Ok(Decision {
                rejection: Some(rejection),
                uid,
            }),
            None => match refused {
                Some(refused) => Err(refused),
                None => Ok(Decision {
                    rejection: None,
                    uid,
                }),
            },
        }
    }
}

/// The refusal that is told, if the policy with this label refuses after the others.
fn told_of(
    alloc: Global,
    first: Option<Refused>,
    label: &PolicyLabel,
    error: RunError,
) -> Result<Refused, AllocError>
    ensures { IfOk result (λ r. refused_view r ≡ preferred is_by_fail (option_map refused_view first) (record { error = error; policy = Some (label_view label.now) })) }
{
    match first {
        Some(first) => {
            if first.is_by_fail() {
                Ok(first)
            } else if label.is_under_fail() {
                refused_by(alloc, label, error)
            } else {
                Ok(first)
            }
        }
        None => refused_by(alloc, label, error),
    }
}

/// The refusal by the policy with this label.
fn refused_by(alloc: Global, label: &PolicyLabel, error: RunError) -> Result<Refused, AllocError>
    ensures { IfOk result (λ r. refused_view r ≡ record { error = error; policy = Some (label_view label.now) }) }
{
    Ok(Refused {
        error,
        policy: Some(label.copy(alloc)?),
    })
}
