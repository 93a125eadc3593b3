//! Decides reviews under several policies.
ghost use Rattle.std.specs.Prelude.{◌≡◌, ◌≢◌, ◌++◌, ◌∷◌, [], ℕ, List, None, Err, IfOk, string_bytes};
ghost use Rattle.value_table.specs.Held.{held_contents};
ghost use Rattle.policy_glue.specs.OneImage.{OneImage};
ghost use Rattle.admission.specs.Decisions.{said_view};
ghost use Rattle.admission.specs.declared.run_error.RunError.TheVariants.{Memory};
ghost use Rattle.gatekeeper_runner.specs.Policies.Tally.{AreTallied};
ghost use Rattle.gatekeeper_runner.specs.Policies.Together.{gatekeeper_of, together_view, AreGates, AreValuesOf, DecidesAlone, DecideTogether, HidesNoFail, IsGateOf, PolicyFile};

use crate::policies::errors::is_memory;
use crate::policies::named_gate::NamedGate;
use crate::policies::tally::Tally;
use crate::refused::Refused;
use admission::{Decision, Limits, RunError};
use policy_glue::Rejection;
use review_tables::SharedDocuments;
use std::alloc::{AllocError, Global};
use value_store::ValueStore;
use value_table::Table;

/// The policies and the documents under which each line is decided. They are the same for all
/// lines.
#[derive(Drop)]
pub struct Gatekeeper {
    pub alloc: Global,
    /// The policies, in order.
    pub gates: Vec<NamedGate>,
    /// The namespace and the params, each null if it is not given. They are parsed once.
    pub documents: SharedDocuments,
    /// What each policy's program may take on a line.
    pub limits: Limits,
    /// The largest length of a line in bytes.
    pub max_line: u64,
}

impl Gatekeeper {
    /// The joint decision of the policies on a review, or why the review is refused. A refusal names
    /// a policy under `Ignore` only if each policy under `Fail` decides.
    ///
    /// # Errors
    ///
    /// An allocation failed, which implies nothing about the review.
    pub fn decision(&self, review: &[u8]) -> Result<Result<Decision, Refused>, AllocError>
        ensures decides { IfOk result (λ r. (policies : List PolicyFile) → AreGates policies self.now.gates.items → DecideTogether OneImage (gatekeeper_of policies self.now) review.now (together_view r)) }
        ensures hides_no_fail { IfOk result (λ r. (policies : List PolicyFile) → AreGates policies self.now.gates.items → HidesNoFail OneImage (gatekeeper_of policies self.now) review.now (together_view r)) }
    {
        match self.documents.table_of(review) {
            Ok((table, uid)) => self.decision_on(table, uid),
            Err(error) => refused_first(RunError::from(error)),
        }
    }

    /// The decision on the review with this uid whose roots are in the table.
    fn decision_on(
        &self,
        table: Table,
        uid: String,
    ) -> Result<Result<Decision, Refused>, AllocError>
        ensures { IfOk result (λ r. (policies : List PolicyFile) (review : List ℕ) → AreGates policies self.now.gates.items
            → AreValuesOf (gatekeeper_of policies self.now) review (held_contents table) (string_bytes uid)
            → DecideTogether OneImage (gatekeeper_of policies self.now) review (together_view r)) }
    {
        match self.gates.split_last() {
            Some((last, others)) => self.decision_with(others, last, table, uid),
            None => Ok(Tally::new().ending(uid)),
        }
    }

    /// The decision of these policies and a last one on such a review. The last policy's program runs on the table
    /// itself.
    fn decision_with(
        &self,
        others: &[NamedGate],
        last: &NamedGate,
        table: Table,
        uid: String,
    ) -> Result<Result<Decision, Refused>, AllocError>
        ensures { IfOk result (λ r. (policies : List PolicyFile) (review : List ℕ) → AreGates policies (others.now ++ last.now ∷ [])
            → AreValuesOf (gatekeeper_of policies self.now) review (held_contents table) (string_bytes uid)
            → DecideTogether OneImage (gatekeeper_of policies self.now) review (together_view r)) }
    {
        let first = self.tally_of(others, &table)?;
        let said = self.rejection_by(last, table);
        let all = first.with(self.alloc, &last.label, said)?;
        Ok(all.ending(uid))
    }

    /// The results of these policies. Each program runs on a copy of the table, which shares the
    /// table's values.
    fn tally_of(&self, gates: &[NamedGate], table: &Table) -> Result<Tally, AllocError>
        ensures { IfOk result (λ tally. (policies asked : List PolicyFile) (review uid : List ℕ) → AreGates asked gates.now
            → AreValuesOf (gatekeeper_of policies self.now) review (held_contents table.now) uid
            → AreTallied OneImage (gatekeeper_of policies self.now) review asked tally) }
    {
        let mut tally = Tally::new();
        for gate in gates {
            let said = self.rejection_by(gate, table.copy()?);
            tally = tally.with(self.alloc, &gate.label, said)?;
        }
        Ok(tally)
    }

    /// Why one policy rejects this review, if it does.
    fn rejection_by(&self, gate: &NamedGate, table: Table) -> Result<Option<Rejection>, RunError>
        ensures { (policies : List PolicyFile) (policy : PolicyFile) (review uid : List ℕ) → IsGateOf policy gate.now
            → AreValuesOf (gatekeeper_of policies self.now) review (held_contents table) uid
            → DecidesAlone OneImage (gatekeeper_of policies self.now) policy review (said_view uid result) }
    {
        gate.gate.rejection_on(table, self.limits)
    }
}

/// The refusal of a review before any policy is asked. Fails if an allocation failed.
fn refused_first(error: RunError) -> Result<Result<Decision, Refused>, AllocError>
    ensures { IfOk result (λ r. (error ≢ Memory) × (together_view r ≡ Err (record { error = error; policy = None }))) }
{
    if is_memory(error) {
        return Err(AllocError);
    }
    let policy = None;
    Ok(Err(Refused { error, policy }))
}
