//! Evaluations of policies.
ghost use Rattle.std.specs.Prelude.{ℕ, List, Option, option_map, IfOk};
ghost use Rattle.serde_json.specs.Data.{Data};
ghost use Rattle.serde_json.specs.View.{view};
ghost use Rattle.policy_glue.specs.OneImage.{OneImage};
ghost use Rattle.admission.specs.Deciding.{Documents, IsGateOn};
ghost use Rattle.admission.specs.Findings.{findings_view, FindsReview};
ghost use Rattle.admission.specs.Lent.{documents_in};
ghost use Rattle.admission.specs.Standing.{RunAgrees};
ghost use Rattle.admission.specs.declared.language.Language.{Language};
ghost use Rattle.cluster_state.specs.Policies.{BoundPolicy};
ghost use Rattle.cluster_gate.specs.Gates.{IsAskedGate};
ghost use Rattle.cluster_gate.specs.Beside.{IsBesideIf};
ghost use Rattle.cluster_gate.specs.Running.{FindsOrRefuses, HasFound};
ghost use Rattle.cluster_gate.specs.Tables.{GivesTable, IsTableOf};

use crate::case::Case;
use crate::texts::text_if;
use admission::{Finding, Gate, RunError};
use cluster_response::ClusterRefusal;
use review_tables::{ReviewError, table_of_review};
use serde_json::Value;
use std::alloc::{AllocError, Global};
use value_table::Table;

/// What the gate's policy finds against the request with these params and this namespace, each null
/// if there is none, or why it does not decide.
///
/// # Errors
///
/// An allocation failed, which implies nothing about the review.
pub(crate) fn evaluate<'a>(
    alloc: Global,
    gate: &Gate,
    case: &Case<'_, '_, 'a>,
    params: Option<&'a Value>,
    namespace: Option<&'a Value>,
) -> Result<Result<Vec<Finding>, ClusterRefusal>, AllocError>
    requires { IsBesideIf case.now.opened case.now.place (option_map (λ v. view v.now) namespace) }
    ensures { IfOk result (λ r. (l : Language) (p : BoundPolicy) → IsAskedGate l p gate.now
        → FindsOrRefuses l OneImage case.now.review.now case.now.limits p (option_map (λ v. view v.now) params.entry) (option_map (λ v. view v.now) namespace.entry) r) }
{
    let Some(opened) = case.opened else {
        return evaluate_alone(alloc, gate, case, params, namespace);
    };
    match opened.table_by(alloc, params, namespace, &case.place) {
        Err(ReviewError::Memory) => Err(AllocError),
        Err(ReviewError::InvalidReview | ReviewError::InvalidDocument) => {
            evaluate_alone(alloc, gate, case, params, namespace)
        }
        table => evaluate_on(gate, case, table),
    }
}

/// What the gate's policy finds on this table, or why it does not decide.
fn evaluate_on(
    gate: &Gate,
    case: &Case<'_, '_, '_>,
    table: Result<Table, ReviewError>,
) -> Result<Result<Vec<Finding>, ClusterRefusal>, AllocError>
    ensures { IfOk result (λ r. (l : Language) (p : BoundPolicy) (params namespace : Option Data) → IsAskedGate l p gate.now → GivesTable case.now.review.now params namespace table
        → FindsOrRefuses l OneImage case.now.review.now case.now.limits p params namespace r) }
{
    found(findings_on(gate, case, table))
}

/// The findings on the table, or the error for which there is no table.
fn findings_on(
    gate: &Gate,
    case: &Case<'_, '_, '_>,
    table: Result<Table, ReviewError>,
) -> Result<Vec<Finding>, RunError>
    ensures finds { (d : Documents) → IsGateOn d.language d.policy gate.now → IsTableOf d table → FindsReview d case.now.limits (findings_view result) }
    ensures runs { (d : Documents) → IsGateOn d.language d.policy gate.now → OneImage gate.now.policy gate.now.image → IsTableOf d table
        → RunAgrees OneImage d case.now.limits (findings_view result) }
{
    let table = table?;
    gate.findings_on(table, case.limits)
}

/// `evaluate`, with the review read for this evaluation alone.
fn evaluate_alone(
    alloc: Global,
    gate: &Gate,
    case: &Case<'_, '_, '_>,
    params: Option<&Value>,
    namespace: Option<&Value>,
) -> Result<Result<Vec<Finding>, ClusterRefusal>, AllocError>
    ensures { IfOk result (λ r. (l : Language) (p : BoundPolicy) → IsAskedGate l p gate.now
        → FindsOrRefuses l OneImage case.now.review.now case.now.limits p (option_map (λ v. view v.now) params.entry) (option_map (λ v. view v.now) namespace.entry) r) }
{
    let params = text_if(alloc, params)?;
    let namespace = text_if(alloc, namespace)?;
    found(findings_with(alloc, gate, case, params.as_deref(), namespace.as_deref()))
}

/// The findings under the texts of the params and the namespace.
fn findings_with(
    alloc: Global,
    gate: &Gate,
    case: &Case<'_, '_, '_>,
    params: Option<&[u8]>,
    namespace: Option<&[u8]>,
) -> Result<Vec<Finding>, RunError>
    ensures finds { (l : Language) (policy : List ℕ) → IsGateOn l policy gate.now
        → FindsReview (documents_in l policy case.now.review.now namespace.entry params.entry) case.now.limits (findings_view result) }
    ensures runs { (l : Language) (policy : List ℕ) → IsGateOn l policy gate.now → OneImage gate.now.policy gate.now.image
        → RunAgrees OneImage (documents_in l policy case.now.review.now namespace.entry params.entry) case.now.limits (findings_view result) }
{
    let (table, _uid) = table_of_review(alloc, case.review, namespace, params)?;
    gate.findings_on(table, case.limits)
}

/// The findings, or the refusal that reports the policy.
fn found(
    findings: Result<Vec<Finding>, RunError>,
) -> Result<Result<Vec<Finding>, ClusterRefusal>, AllocError>
    ensures { IfOk result (HasFound findings) }
{
    match findings {
        Ok(findings) => Ok(Ok(findings)),
        Err(RunError::PolicyRefused(_)) => Ok(Err(ClusterRefusal::PolicyRefused)),
        Err(RunError::ReviewRefused) => Ok(Err(ClusterRefusal::ReviewRefused)),
        Err(RunError::NamespaceOrParamsRefused) => {
            Ok(Err(ClusterRefusal::NamespaceOrParamsRefused))
        }
        Err(RunError::OutOfSteps) => Ok(Err(ClusterRefusal::OutOfSteps)),
        Err(RunError::OverLimit) => Ok(Err(ClusterRefusal::OverLimit)),
        Err(RunError::OutOfReads) => Ok(Err(ClusterRefusal::OutOfReads)),
        Err(RunError::Memory) => Err(AllocError),
    }
}
