//! Laws, each the contract of an empty function.

ghost use Rattle.wide_policy.specs.Carrying.{CarriedPolicyDecides};
ghost use Rattle.wide_policy.specs.Laws.{HasOneWidePolicy, WidePoliciesAreTaken, WidePoliciesDecide};
ghost use Rattle.wide_policy.specs.Rows.{WideDocumentRowsHold};

use wide_indices::{narrow_conditions_are_tabled, narrow_policies_are_tabled};
use wide_reader::one_tree;
use wide_translation::{condition_means_the_same, policy_means_the_same};

/// A policy whose expressions carry the values of a wide policy's decides as that does.
#[tactic(auto, using(crate::proofs::Deciding::carried_decides))]
pub fn carried_policy_decides()
    ensures { CarriedPolicyDecides }
{
    policy_means_the_same();
    condition_means_the_same();
    narrow_policies_are_tabled();
    narrow_conditions_are_tabled();
}

/// A document holds one policy, or is refused.
pub fn one_wide_policy()
    ensures one { HasOneWidePolicy }
    ensures taken { WidePoliciesAreTaken }
{}

/// A policy in a document decides as its wide expressions mean.
pub fn wide_policies_decide()
    ensures { WidePoliciesDecide }
{
    carried_policy_decides();
    one_tree();
}

/// Documents of policies, and the results of reading them.
#[tactic(auto, unfolding(crate::proofs::OnLiterals::wide_documents_on_literals))]
pub fn document_rows_hold()
    ensures { WideDocumentRowsHold }
{}
