//! The laws of the meaning, each the contract of an empty function.

ghost use Rattle.cel_macros.specs.Rows.{MeaningRowsHold};
ghost use Rattle.cel_macros.specs.Laws.{ExpansionKeepsMeaning, SettledStays};
ghost use Rattle.cel_macros.specs.Values.{IntsStay, TextsAndKeysStay};

/// The meanings of expressions that were worked out by hand from cel-spec.
pub fn rows_stand()
    ensures { MeaningRowsHold }
{}

/// Expansion keeps the source tree, and the folds of an expanded tree have the meaning of its macros.
#[tactic(auto, using(crate::proofs::Expansion::expansion_means, crate::proofs::Expansion::expansion_plain))]
pub fn expands()
    ensures { ExpansionKeepsMeaning }
{}

/// A settled result of a fold is not changed by further items, so that a loop may end there.
pub fn settled_stays()
    ensures { SettledStays }
{}

/// In an environment of values a well-formed expression means a value or the error: its texts are UTF-8, its keys are
/// in order without duplicates, and without `size` its ints are signed 64-bit integers.
#[tactic(auto, using(crate::proofs::StaysValue::ints_stay, crate::proofs::StaysValue::texts_stay))]
pub fn values_stay()
    ensures texts { TextsAndKeysStay }
    ensures ints { IntsStay }
{}
