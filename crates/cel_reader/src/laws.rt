//! The laws of the grammar, each proved as the contract of an empty function.

ghost use Rattle.std.specs.Prelude.{List};
ghost use Rattle.cel_tokens.specs.Token.{Word};
ghost use Rattle.cel_reader.specs.Laws.{GoesWrongOnce, ReadHasOneResult, HasOneTree, KeepsWithMoreRoom, TreesAreLists, EntriesAreLists};
ghost use Rattle.cel_reader.specs.LiteralRows.{LiteralRowsHold, MemoryIsForShortTexts};
ghost use Rattle.cel_reader.specs.RefusalRows.{RefusalRowsStand};

/// Words are at most one expression, and the same one if more brackets and conditionals may be open.
#[tactic(auto, using(crate::proofs::Theorems::whole_unique, crate::proofs::Theorems::more_room))]
pub fn one_tree()
    ensures one { HasOneTree }
    ensures kept { KeepsWithMoreRoom }
{}

/// Except for allocation failures, a text has at most one result, its tree or one error with its position: words that
/// are not an expression have at most one error position and one cause.
#[tactic(auto, using(crate::proofs::OneAnswer::one_answer, crate::proofs::OneAnswer::wrong_once))]
pub fn one_answer()
    ensures place { (ws : List Word) → GoesWrongOnce ws }
    ensures answer { ReadHasOneResult }
{}

/// Words that are literals, operators or names.
#[tactic(auto, unfolding(crate::specs::Words::role_of, crate::specs::Words::is_reserved))]
pub fn literal_rows_stand()
    ensures { LiteralRowsHold }
{}

/// An allocation fails only for a text that is not too long.
#[tactic(auto)]
pub fn memory_is_for_short_texts()
    ensures { MemoryIsForShortTexts }
{}

/// Texts that are refused, with their errors, worked out by hand.
#[tactic(auto, using(crate::proofs::Runs::Refusals::rows_stand))]
pub fn refusal_rows_stand()
    ensures { RefusalRowsStand }
{}

/// The parts of a list and of a map as lists, with the same length.
#[tactic(auto, using(crate::proofs::TreeLists::list_of_trees, crate::proofs::TreeLists::trees_of_list, crate::proofs::TreeLists::count_of_trees, crate::proofs::TreeLists::list_of_entries, crate::proofs::TreeLists::entries_of_list, crate::proofs::TreeLists::count_of_entries))]
pub fn parts_in_lists()
    ensures trees { TreesAreLists }
    ensures entries { EntriesAreLists }
{}
