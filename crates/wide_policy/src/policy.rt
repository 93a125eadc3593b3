//! Policies as clusters store them.

ghost use Rattle.std.specs.Prelude.{◌≡◌, IfOk, true, false, Err};
ghost use Rattle.wide_policy.specs.Errors.{needs_indices};
ghost use Rattle.wide_policy.specs.Reading.{DecidesAsWide, HasWideTree, WidePolicyReturns};
ghost use Rattle.wide_policy.specs.Returns.{IsTabledOr, ReadsWide, ReturnsPolicy, first_refusal};

use crate::laws::carried_policy_decides;
use crate::left_out::LeftOut;
use crate::message_rule::MessageRule;
use crate::named::{conditions, variables};
use crate::source::source;
use crate::tabling::tabled;
use crate::validations::validations;
use crate::wide_policy_error::WidePolicyError;
use policy_glue::{Parts, Policy};
use std::alloc::Global;
use wide_reader::one_tree;

/// A policy as clusters store it, and the policy that is compiled and decides as it does.
#[derive(Debug, Drop)]
pub struct WidePolicy {
    /// The policy with the texts of its author, without the message expressions that are left out.
    pub source: Policy,
    /// The policy with the texts of the translations.
    pub profile: Policy,
    /// The message expressions that are left out, in order.
    pub left_out: Vec<LeftOut>,
    /// Whether `profile` is decided on roots with a table of indices beside the parameters.
    pub wrapped: bool,
}

impl WidePolicy {
    /// Reads the policy in a document (ValidatingAdmissionPolicy, `admissionregistration.k8s.io` `v1`, `v1beta1` or
    /// `v1alpha1`) and translates its expressions. If one of them needs a table of indices, all are translated for roots
    /// that have one, and the policy is taken if a table as long as the documents are wide, and at least 16, is long
    /// enough for each.
    ///
    /// # Errors
    ///
    /// The first refusal: `HasAuditAnnotations`, the refusals of [`Policy::read`], and `InvalidExpression`. `Memory` if
    /// an allocation fails, which says nothing about the document.
    pub fn read(
        alloc: Global,
        document: &[u8],
        rule: MessageRule,
    ) -> Result<WidePolicy, WidePolicyError>
        ensures reads { WidePolicyReturns rule document.now result }
        ensures wide { IfOk result (λ p. HasWideTree p.source) }
        ensures decides { IfOk result (λ p. DecidesAsWide p.wrapped p.source p.profile) }
    {
        carried_policy_decides();
        one_tree();
        read_either(alloc, document, rule)
    }
}

/// The policy in a document, with a table of indices if that helps.
fn read_either(
    alloc: Global,
    document: &[u8],
    rule: MessageRule,
) -> Result<WidePolicy, WidePolicyError>
    ensures { WidePolicyReturns rule document.now result }
{
    match read_as(alloc, document, rule, false) {
        Ok(policy) => Ok(policy),
        Err(first) => {
            if first.needs_indices() {
                return read_wrapped(alloc, document, rule, first);
            }
            Err(first)
        }
    }
}

/// The policy with a table of indices, if that is long enough; else the first refusal.
fn read_wrapped(
    alloc: Global,
    document: &[u8],
    rule: MessageRule,
    first: WidePolicyError,
) -> Result<WidePolicy, WidePolicyError>
    requires needs { needs_indices first ≡ true }
    requires reads { ReadsWide false rule document.now (Err first) }
    ensures { WidePolicyReturns rule document.now result }
{
    match read_as(alloc, document, rule, true) {
        Ok(policy) => tabled_or(alloc, policy, first),
        Err(second) => Err(first_refusal(second, first)),
    }
}

/// The first of two refusals; out of memory stays `Memory`.
fn first_refusal(second: WidePolicyError, first: WidePolicyError) -> WidePolicyError
    ensures { result ≡ first_refusal second first }
{
    match second {
        WidePolicyError::Memory => {
            drop(first);
            WidePolicyError::Memory
        }
        other => {
            drop(other);
            first
        }
    }
}

/// The policy that needs a table of indices, if that is long enough; else this refusal.
fn tabled_or(
    alloc: Global,
    policy: WidePolicy,
    refusal: WidePolicyError,
) -> Result<WidePolicy, WidePolicyError>
    ensures { IsTabledOr policy refusal result }
{
    match tabled(alloc, policy) {
        Ok(Some(policy)) => {
            drop(refusal);
            Ok(policy)
        }
        Ok(None) => Err(refusal),
        Err(_) => {
            drop(refusal);
            Err(WidePolicyError::Memory)
        }
    }
}

/// The policy in a document, translated for roots that are wrapped or not.
fn read_as(
    alloc: Global,
    document: &[u8],
    rule: MessageRule,
    wrapped: bool,
) -> Result<WidePolicy, WidePolicyError>
    ensures { ReadsWide wrapped rule document.now result }
{
    let parsed = source(alloc, document)?;
    translated(alloc, parsed, rule, wrapped)
}

/// The policy and its translation.
fn translated(
    alloc: Global,
    parsed: Policy,
    rule: MessageRule,
    wrapped: bool,
) -> Result<WidePolicy, WidePolicyError>
    ensures { ReturnsPolicy wrapped rule parsed result }
{
    let Parts {
        failure_policy,
        conditions: own_conditions,
        variables: own_variables,
        validations: own_validations,
    } = parsed.into_parts();
    let (scope, variables) = variables(alloc, own_variables.as_slice(), wrapped)?;
    let conditions = conditions(alloc, own_conditions.as_slice(), wrapped)?;
    let taken = validations(alloc, own_validations.as_slice(), &scope, rule)?;
    let source = Policy::of_parts(Parts {
        failure_policy,
        conditions: own_conditions,
        variables: own_variables,
        validations: taken.source,
    });
    let profile = Policy::of_parts(Parts {
        failure_policy,
        conditions,
        variables,
        validations: taken.profile,
    });
    Ok(WidePolicy {
        source,
        profile,
        left_out: taken.left_out,
        wrapped,
    })
}
