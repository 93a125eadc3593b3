//! Laws of the translation, each the contract of an empty function.

ghost use Rattle.wide_translation.specs.Laws.{TranslationMeansTheSame};
ghost use Rattle.wide_translation.specs.Placed.{ConditionMeansTheSame, PolicyMeansTheSame};
ghost use Rattle.wide_translation.specs.Rows.{TranslationRowsHold};

/// A translation, if there is one, carries what the wide expression means.
#[tactic(auto, using(crate::proofs::Same::translation_same))]
pub fn translation_means_the_same()
    ensures { TranslationMeansTheSame }
{}

/// Each expression of a policy, translated in the scope of its variables, carries what the expression means with
/// their values.
#[tactic(auto, using(crate::proofs::Policies::policy_same))]
pub fn policy_means_the_same()
    ensures { PolicyMeansTheSame }
{}

/// A translation of a match condition carries what the condition means without a namespace.
#[tactic(auto, using(crate::proofs::Policies::condition_same))]
pub fn condition_means_the_same()
    ensures { ConditionMeansTheSame }
{}

/// The translations and refusals that were worked out by hand.
pub fn rows_stand()
    ensures { TranslationRowsHold }
{}
