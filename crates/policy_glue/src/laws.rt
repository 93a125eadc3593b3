//! Laws: what is proved of policies and of their code, and examples worked by hand. Each is the
//! clause of a function that does nothing.
ghost use Rattle.policy_glue.specs.BudgetRows.{BudgetRowsStand};
ghost use Rattle.policy_glue.specs.DecisionRows.{CheckingRowsStand, DecisionRowsStand};
ghost use Rattle.policy_glue.specs.FindingRows.{FindingRowsStand};
ghost use Rattle.policy_glue.specs.LimitRows.{LimitRowsStand};
ghost use Rattle.policy_glue.specs.NamingRows.{NamingRowsStand};
ghost use Rattle.policy_glue.specs.OneAnswer.{CompileHasOneResult, HasNoOtherType, HasOneImage};
ghost use Rattle.policy_glue.specs.RejectionRows.{LayoutRowsStand, RejectionRowsStand};
ghost use Rattle.policy_glue.specs.RunRows.{RunRowsStand};
ghost use Rattle.policy_glue.specs.Rows.{PolicyRowsStand, VerdictRowsStand, ResponseRowsStand};

pub use policy_code::laws::{policy_decides, program_decides, program_is_code};

/// Documents of policies, and the results of reading them.
#[tactic(auto, unfolding(crate::proofs::OnLiterals::documents_on_literals))]
pub fn policy_rows_stand()
    ensures { PolicyRowsStand }
{}

/// The largest numbers of parts, and the response for each reason.
#[tactic(auto, unfolding(crate::proofs::OnLiterals::documents_on_literals))]
pub fn limit_rows_stand()
    ensures { LimitRowsStand }
{}

/// Verdicts for the values of conditions, validations and message expressions.
#[tactic(auto, unfolding(crate::proofs::OnLiterals::policies_on_literals))]
pub fn verdict_rows_stand()
    ensures { VerdictRowsStand }
{}

/// Texts of responses.
#[tactic(auto, unfolding(crate::proofs::OnLiterals::documents_on_literals))]
pub fn response_rows_stand()
    ensures { ResponseRowsStand }
{}

/// Rejections of requests, and words of verdict regions.
#[tactic(auto, unfolding(crate::proofs::OnLiterals::documents_on_literals))]
pub fn rejection_rows_stand()
    ensures rejections { RejectionRowsStand }
    ensures layout { LayoutRowsStand }
{}

/// What is found against requests.
#[tactic(auto, unfolding(crate::proofs::FoundOnLiterals::findings_on_literals))]
pub fn finding_rows_stand()
    ensures { FindingRowsStand }
{}

/// Conditions that name the namespace of a request, and some that do not.
#[tactic(auto, unfolding(crate::specs::Naming::names))]
pub fn naming_rows_stand()
    ensures { NamingRowsStand }
{}

/// Decisions of policies on the documents of a request.
#[tactic(auto, unfolding(crate::proofs::OnLiterals::policies_on_literals))]
pub fn decision_rows_stand()
    ensures { DecisionRowsStand }
{}

/// Expressions that are accepted and others that are refused.
#[tactic(auto, unfolding(crate::proofs::OnLiterals::policies_on_literals))]
pub fn checking_rows_stand()
    ensures { CheckingRowsStand }
{}

/// The visits and costs of policies, and their size limits.
#[tactic(auto, unfolding(crate::proofs::OnLiterals::policies_on_literals))]
pub fn budget_rows_stand()
    ensures { BudgetRowsStand }
{}

/// Programs of policies run by hand.
#[tactic(auto, unfolding(crate::proofs::OnLiterals::programs_on_literals))]
pub fn run_rows_stand()
    ensures { RunRowsStand }
{}

/// Compilation of a policy has one result, its trees or its first refusal, and one image. No policy
/// is refused for the type of an expression that has the required type.
#[tactic(auto, using(crate::proofs::OneAnswer::compiled_once, crate::proofs::OneAnswer::one_image))]
pub fn compiles_once()
    ensures answer { CompileHasOneResult }
    ensures image { HasOneImage }
    ensures of_type { HasNoOtherType }
{}
