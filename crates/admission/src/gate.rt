//! Policies that are compiled once to decide many reviews.
ghost use Rattle.std.specs.Prelude.{◌≡◌, ℕ, List, map, option_map, IfOk, Ok};
ghost use Rattle.bpf_machine.specs.Reads.{LimitedStopsOnce};
ghost use Rattle.bpf_machine.specs.State.{start_state};
ghost use Rattle.bpf_machine.specs.Starts.{StartsAreTables};
ghost use Rattle.bpf_machine.specs.States.{StatesAreKept};
ghost use Rattle.value_store.specs.Laws.{StartIsCanonical};
ghost use Rattle.value_store.specs.Placing.{Contents};
ghost use Rattle.value_table.specs.Held.{held_contents};
ghost use Rattle.policy_glue.specs.Findings.{finding_view, findings_of};
ghost use Rattle.policy_glue.specs.Limits.{Compiles};
ghost use Rattle.policy_glue.specs.Naming.{conditions_name_namespace};
ghost use Rattle.policy_glue.specs.OneImage.{OneImage};
ghost use Rattle.policy_glue.specs.Rejections.{rejection_of, rejection_view};
ghost use Rattle.policy_glue.specs.Trees.{PolicyTree};
ghost use Rattle.policy_glue.specs.Compiled.{CompilesTo};
ghost use Rattle.admission.specs.Deciding.{answer_of, answer_view, is_allowed, AreGiven, Documents, IsGateOn, OpensGate, Reviews, values_given};
ghost use Rattle.admission.specs.Exiting.{exit_state, exit_view, Exits, OfVerdict};
ghost use Rattle.admission.specs.GatePolicies.{gate_image};
ghost use Rattle.admission.specs.Lent.{documents_in};
ghost use Rattle.admission.specs.Decisions.{said_view, DecidesReview};
ghost use Rattle.admission.specs.Findings.{findings_view, FindsReview};
ghost use Rattle.admission.specs.Standing.{exactly, RunAgrees};
ghost use Rattle.admission.specs.Starting.{IsFirstState, PlacesRoots, StartsGate};
ghost use Rattle.admission.specs.declared.language.Language.{Language};

use crate::limits::Limits;
use crate::policy_and_image::compile_document;
use crate::policy_refusal::PolicyRefusal;
use crate::reply::Reply;
use crate::run_error::RunError;
use bpf_machine::laws::{limits_hold, starts_are_tables, states_are_kept};
use bpf_machine::{Machine, Program};
use guest_memory::Guest;
use policy_glue::{
    CompileError, Finding, Outcome, Policy, Rejection, Verdict, compile, conditions_name_namespace,
    findings_left, rejection_left, respond,
};
use review_tables::table_of_review;
use run_ends::has_exited;
use std::alloc::{AllocError, Global};
use std::marker::Model;
use value_store::ValueStore;
use value_store::laws::values_are_as_said;
use value_table::Table;
use wide_tables::{WrapError, wrapped};

/// A policy that is compiled and decoded once and decides any number of reviews. No decision changes
/// it, not even one whose allocation fails.
#[derive(Drop)]
pub struct Gate {
    alloc: Global,
    /// The policy with the texts of its author, if other texts are compiled.
    told: Option<Policy>,
    /// The policy that is compiled.
    policy: Policy,
    program: Program,
    /// Whether the program runs on roots with a table of indices beside the params.
    wrapped: bool,
}

impl Model for Gate {
    ghost use Rattle.admission.specs.GatePolicies.{told_or, GatePolicy};

    ghost Value = { GatePolicy };

    ghost view = { λ g. record { told = told_or g.told g.policy; policy = g.policy; image = g.program; wrapped = g.wrapped } };
}

impl Gate {
    /// Compiles the policy (ValidatingAdmissionPolicy, `admissionregistration.k8s.io/v1`) in a
    /// document.
    ///
    /// # Errors
    ///
    /// `Unread` if the document is not a policy, `Uncompiled` if the policy is not compiled. `Memory`
    /// if an allocation fails; the contract always allows it, and then states nothing of the policy.
    pub fn new(alloc: Global, policy: &[u8]) -> Result<Gate, PolicyRefusal>
        ensures compiles { OpensGate policy.now result }
        // Pins the image: there is only one that meets this clause.
        ensures one { IfOk result (λ g. OneImage g.policy g.image) }
    {
        let compiled = compile_document(alloc, policy)?;
        let program = Program::new(alloc, compiled.image)?;
        Ok(Gate {
            alloc,
            told: None,
            policy: compiled.policy,
            program,
            wrapped: false,
        })
    }

    /// Compiles the translation of a policy. Messages have the texts of `told`. If the translation is
    /// `wrapped`, it is decided on roots with a table of indices beside the params.
    pub(crate) fn of_translation(
        alloc: Global,
        told: Policy,
        policy: Policy,
        wrapped: bool,
    ) -> Result<Gate, CompileError>
        ensures compiles { CompilesTo policy (gate_image result) }
        ensures policies { IfOk result (λ g. (g.told ≡ told) × (g.policy ≡ policy) × (g.wrapped ≡ wrapped)) }
        ensures one { IfOk result (λ g. OneImage policy g.image) }
    {
        let image = compile(alloc, &policy)?;
        let program = Program::new(alloc, image)?;
        Ok(Gate {
            alloc,
            told: Some(told),
            policy,
            program,
            wrapped,
        })
    }

    /// The policy with the texts of its author.
    fn told(&self) -> &Policy
        ensures { result.now ≡ self.now.told }
    {
        match &self.told {
            Some(told) => told,
            None => &self.policy,
        }
    }

    /// The response to a review (AdmissionReview, `admission.k8s.io/v1`) under the policy, whose
    /// program runs within the limits. The root `namespaceObject` is null without a namespace,
    /// `params` without params.
    ///
    /// # Errors
    ///
    /// The first refusal. `ReviewRefused` and `NamespaceOrParamsRefused` refuse the documents, as
    /// in `roots`; the first also if the roots are too large with the table of indices that the
    /// policy needs. `OutOfSteps`: the program still runs after all its steps. `OutOfReads`: it still
    /// runs, and its next helper call would bring what it reads above the limit. `OverLimit`: it was
    /// stopped before either. `Memory` if an allocation fails; the contract always allows it, and
    /// then states nothing of the review.
    pub fn decide(
        &self,
        review: &[u8],
        namespace: Option<&[u8]>,
        params: Option<&[u8]>,
        limits: Limits,
    ) -> Result<Reply, RunError>
        // A result that the review may have, for each policy document that gives this gate.
        ensures reviews { (language : Language) (policy : List ℕ) → IsGateOn language policy self.now → Reviews (documents_in language policy review.now namespace.entry params.entry) limits (answer_view result) }
        // The program's run agrees. Only one result meets both clauses, apart from `Memory`.
        ensures runs { (language : Language) (policy : List ℕ) → IsGateOn language policy self.now → RunAgrees (exactly self.now.image) (documents_in language policy review.now namespace.entry params.entry) limits (answer_view result) }
    {
        let (table, uid) = table_of_review(self.alloc, review, namespace, params)?;
        self.decide_on(table, uid.as_str(), limits)
    }

    /// The response to the review whose roots are in the table. `uid` is the uid of its request. For
    /// another table or uid the contract states nothing. See `decide`.
    ///
    /// # Errors
    ///
    /// `ReviewRefused`, `OutOfSteps`, `OverLimit`, `OutOfReads` and `Memory`, as in `decide`.
    pub fn decide_on(&self, table: Table, uid: &str, limits: Limits) -> Result<Reply, RunError>
        ensures reviews { (d : Documents) → IsGateOn d.language d.policy self.now → AreGiven d (held_contents table) uid.now → Reviews d limits (answer_view result) }
        ensures runs { (d : Documents) → IsGateOn d.language d.policy self.now → AreGiven d (held_contents table) uid.now → RunAgrees (exactly self.now.image) d limits (answer_view result) }
    {
        let mut machine = self.machine(table)?;
        self.run(&mut machine, limits)?;
        Ok(reply(self.alloc, self.told(), &machine, uid)?)
    }

    /// Why the policy rejects the request of such a review, if it does. See `decide_on`.
    ///
    /// # Errors
    ///
    /// `ReviewRefused`, `OutOfSteps`, `OverLimit`, `OutOfReads` and `Memory`, as in `decide`.
    pub fn rejection_on(&self, table: Table, limits: Limits) -> Result<Option<Rejection>, RunError>
        ensures says { (d : Documents) (uid : List ℕ) → IsGateOn d.language d.policy self.now → AreGiven d (held_contents table) uid → DecidesReview d limits (said_view uid result) }
        ensures runs { (d : Documents) (uid : List ℕ) → IsGateOn d.language d.policy self.now → AreGiven d (held_contents table) uid → RunAgrees (exactly self.now.image) d limits (said_view uid result) }
    {
        let mut machine = self.machine(table)?;
        self.run(&mut machine, limits)?;
        Ok(rejection_of_verdict(self.alloc, self.told(), &machine)?)
    }

    /// What the policy finds against the request of such a review.
    ///
    /// # Errors
    ///
    /// `ReviewRefused`, `OutOfSteps`, `OverLimit`, `OutOfReads` and `Memory`, as in `decide`.
    pub fn findings_on(&self, table: Table, limits: Limits) -> Result<Vec<Finding>, RunError>
        ensures finds { (d : Documents) → IsGateOn d.language d.policy self.now → values_given d ≡ Ok (held_contents table) → FindsReview d limits (findings_view result) }
        ensures runs { (d : Documents) → IsGateOn d.language d.policy self.now → values_given d ≡ Ok (held_contents table) → RunAgrees (exactly self.now.image) d limits (findings_view result) }
    {
        let mut machine = self.machine(table)?;
        self.run(&mut machine, limits)?;
        Ok(findings_of_verdict(self.alloc, self.told(), &machine)?)
    }

    /// Whether some match condition of the policy names the root `namespaceObject`, if only as the
    /// name that a macro binds. The error says that an allocation failed.
    pub fn names_namespace_in_conditions(&self) -> Result<bool, AllocError>
        ensures { (t : PolicyTree) → Compiles self.now.policy (Ok t) → IfOk result (λ named. named ≡ conditions_name_namespace t) }
    {
        conditions_name_namespace(self.alloc, &self.policy)
    }

    /// A machine before its first step, with the policy's program and the roots on which it runs.
    fn machine(&self, table: Table) -> Result<Machine<Table, Guest>, RunError>
        ensures { StartsGate self.now (held_contents table) result }
    {
        let placed = self.placed(table)?;
        Ok(self.machine_on(placed)?)
    }

    /// The table of the roots on which the policy's program runs.
    fn placed(&self, table: Table) -> Result<Table, WrapError>
        ensures { PlacesRoots self.now (held_contents table) result }
    {
        if self.wrapped {
            wrapped(table)
        } else {
            Ok(table)
        }
    }

    /// A machine before its first step, with the policy's program and the roots in the table.
    fn machine_on(&self, table: Table) -> Result<Machine<Table, Guest>, AllocError>
        ensures { IfOk result (λ m. m ≡ start_state self.now.image (held_contents table)) }
    {
        Machine::of_program(self.alloc, self.program.copy()?, table)
    }

    /// Runs a machine before its first step until the policy's program exits, within the limits.
    /// The machine is borrowed, since it is large.
    fn run(&self, machine: &mut Machine<Table, Guest>, limits: Limits) -> Result<(), RunError>
        ensures exits { (d : Documents) (uid : List ℕ) (roots : Contents) → IsGateOn d.language d.policy self.now → AreGiven d roots uid
            → IsFirstState self.now roots machine.old → Exits self.now.told d limits (exit_view uid (exit_state machine.new result)) }
        ensures runs { (d : Documents) (uid : List ℕ) (roots : Contents) → IsGateOn d.language d.policy self.now → AreGiven d roots uid
            → IsFirstState self.now roots machine.old → RunAgrees (exactly self.now.image) d limits (exit_view uid (exit_state machine.new result)) }
    {
        starts_stand();
        let end = machine.run_within(limits.steps, limits.reads)?;
        has_exited(end)?;
        Ok(())
    }
}

/// Does nothing. Its clauses are laws of every start on roots, of every later state, and of the ends
/// of runs.
fn starts_stand()
    ensures tables { StartsAreTables }
    ensures canonical { StartIsCanonical }
    ensures states { StatesAreKept }
    ensures once { LimitedStopsOnce }
{
    starts_are_tables();
    values_are_as_said();
    states_are_kept();
    limits_hold();
}

/// The reply to the request with this uid, from the verdict that the program left.
#[tactic(auto, using(crate::proofs::Decided::replied))]
fn reply(
    alloc: Global,
    policy: &Policy,
    machine: &Machine<Table, Guest>,
    uid: &str,
) -> Result<Reply, AllocError>
    ensures { IfOk result (λ r. OfVerdict policy.now machine.now (λ v. (record { response = r.response.items; allowed = r.allowed }) ≡ answer_of policy.now v uid.now)) }
{
    let verdict = Verdict::of(machine.memory(), machine.values(), policy);
    let response = respond(alloc, policy, &verdict, uid)?;
    let allowed = allows(Outcome::of_word(verdict.outcome));
    Ok(Reply { response, allowed })
}

/// Whether this outcome allows the request: the policy was skipped or admits it.
fn allows(outcome: Outcome) -> bool
    ensures { result ≡ is_allowed outcome }
{
    match outcome {
        Outcome::Skipped | Outcome::Admitted => true,
        Outcome::Rejected | Outcome::Denied => false,
    }
}

/// Why the verdict that the program left rejects the request, if it does.
fn rejection_of_verdict(
    alloc: Global,
    policy: &Policy,
    machine: &Machine<Table, Guest>,
) -> Result<Option<Rejection>, AllocError>
    ensures { IfOk result (λ said. OfVerdict policy.now machine.now (λ v. option_map rejection_view said ≡ rejection_of policy.now v)) }
{
    rejection_left(alloc, policy, machine.memory(), machine.values())
}

/// What the verdict that the program left finds against the request.
fn findings_of_verdict(
    alloc: Global,
    policy: &Policy,
    machine: &Machine<Table, Guest>,
) -> Result<Vec<Finding>, AllocError>
    ensures { IfOk result (λ found. OfVerdict policy.now machine.now (λ v. map finding_view found.items ≡ findings_of policy.now v)) }
{
    findings_left(alloc, policy, machine.memory(), machine.values())
}
