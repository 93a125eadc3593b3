//! Policies, read from their documents.

ghost use Rattle.std.specs.Prelude.{◌≡◌, ◌≢◌, Err, string_bytes};
ghost use Rattle.std.specs.List.{list_any};
ghost use Rattle.serde_json.specs.View.{view};
ghost use Rattle.verdicts.specs.Policy.{policy_view};
ghost use Rattle.verdicts.specs.Reading.{has_broken_message, has_line_break, has_too_many, IsAcceptedPolicy, judged, policy_in, policy_of, PolicyReadReturns};
ghost use Rattle.verdicts.specs.declared.policy_error.PolicyError.TheVariants.{Memory};

use crate::parts::Parts;
use crate::policy_error::PolicyError;
use crate::reading::{has_head, parts};
use crate::validation::Validation;
use json_fields::parse_document;
use serde_json::Value;
use std::alloc::Global;
use std::marker::Model;

/// The largest number of conditions, of variables and of validations. A verdict has a word for each
/// validation.
pub(crate) const PART_LIMIT: usize = 64;

/// A policy: at most 64 match conditions, at most 64 variables, 1 to 64 validations, and no message
/// with a line break. Its expressions are not parsed yet.
#[derive(Debug, Drop)]
pub struct Policy {
    pub(crate) parts: Parts,
}

impl Model for Policy {
    ghost use Rattle.verdicts.specs.Policy.{Policy, policy_view};
    ghost use Rattle.verdicts.specs.Reading.{IsAcceptedPolicy};

    ghost Value = { Policy };

    ghost view = { λ p. policy_view p.parts };

    ghost invariant = { λ p. IsAcceptedPolicy (policy_view p.parts) };
}

impl Policy {
    /// Reads the policy in a document (ValidatingAdmissionPolicy,
    /// `admissionregistration.k8s.io/v1`).
    ///
    /// # Errors
    ///
    /// The first refusal in the order of [`PolicyError`]. `Memory` if an allocation fails, which
    /// says nothing about the document.
    #[tactic(auto, unfolding(crate::specs::Reading::policy_in))]
    pub fn read(alloc: Global, bytes: &[u8]) -> Result<Policy, PolicyError>
        ensures { PolicyReadReturns (policy_in bytes.now) result }
    {
        match parse_document(alloc, bytes)? {
            Some(value) => Policy::of_value(alloc, &value),
            None => Err(PolicyError::NotJson),
        }
    }

    /// Reads the policy in a document that is parsed already.
    ///
    /// # Errors
    ///
    /// As in `read`, but for `NotJson`.
    #[tactic(auto, unfolding(crate::specs::Reading::policy_of))]
    pub fn of_value(alloc: Global, value: &Value) -> Result<Policy, PolicyError>
        ensures { PolicyReadReturns (policy_of (view value.now)) result }
    {
        if !has_head(value) {
            return Err(PolicyError::NotAPolicy);
        }
        judged(parts(alloc, value)?)
    }

    /// The policy with these parts, which are within the limits.
    pub fn of_parts(parts: Parts) -> Policy
        requires { IsAcceptedPolicy (policy_view parts) }
        ensures { result ≡ policy_view parts }
    {
        Policy { parts }
    }

    /// Its parts, lent.
    pub fn parts(&self) -> &Parts
        ensures parts { policy_view result.now ≡ self.now }
        ensures accepted { IsAcceptedPolicy (policy_view result.now) }
    {
        &self.parts
    }

    /// Its parts.
    pub fn into_parts(self) -> Parts
        ensures parts { policy_view result ≡ self }
        ensures accepted { IsAcceptedPolicy (policy_view result) }
    {
        self.parts
    }
}

/// The policy with these parts, if they are within the limits.
fn judged(parts: Parts) -> Result<Policy, PolicyError>
    ensures reads { PolicyReadReturns (judged (policy_view parts)) result }
    ensures no_memory { result ≢ Err Memory }
{
    if parts.validations.is_empty() {
        return Err(PolicyError::NoValidations);
    }
    if has_too_many(&parts) {
        return Err(PolicyError::TooManyParts);
    }
    if has_broken_message(&parts) {
        return Err(PolicyError::MessageWithLineBreak);
    }
    Ok(Policy { parts })
}

fn has_too_many(parts: &Parts) -> bool
    ensures { result ≡ has_too_many (policy_view parts.now) }
{
    parts.conditions.len() > PART_LIMIT
        || parts.variables.len() > PART_LIMIT
        || parts.validations.len() > PART_LIMIT
}

#[tactic(auto, using(crate::proofs::Lists::breaks_in_views))]
fn has_broken_message(parts: &Parts) -> bool
    ensures { result ≡ has_broken_message (policy_view parts.now) }
{
    is_one_broken(parts.validations.as_slice())
}

/// Whether a message has a line break.
fn is_one_broken(validations: &[Validation]) -> bool
    ensures { result ≡ list_any (λ v. has_line_break (string_bytes v.message)) validations.now }
{
    validations
        .iter()
        .any(|validation| has_line_break(validation.message.as_str()))
}

/// Whether the text has a line feed or a carriage return.
pub(crate) fn has_line_break(text: &str) -> bool
    ensures { result ≡ has_line_break text.now }
{
    text.as_bytes()
        .iter()
        .any(|byte| *byte == b'\n' || *byte == b'\r')
}
