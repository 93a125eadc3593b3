//! Laws of the definitions. Each is the clause of a function that does nothing.
ghost use Rattle.label_selectors.specs.Laws.{EmptySelectsAll, SelectsByAll};
ghost use Rattle.label_selectors.specs.Rows.{GrammarRowsHold, OperatorRowsHold, SelectorRowsHold, StoringRowsHold};

/// The table of operators, one row each.
pub fn operator_rows_hold()
    ensures { OperatorRowsHold }
{}

/// Selectors on labels, worked by hand.
pub fn selector_rows_hold()
    ensures { SelectorRowsHold }
{}

/// Keys and values, worked by hand.
#[tactic(auto, unfolding(crate::specs::Storing::is_label_key, crate::specs::Storing::is_label_value, crate::specs::Storing::is_name, crate::specs::Storing::is_prefix, crate::specs::Storing::is_dns_label))]
pub fn grammar_rows_hold()
    ensures { GrammarRowsHold }
{}

/// Requirements that the API server stores, and why it refuses others, worked by hand.
#[tactic(auto, unfolding(crate::specs::Storing::checked_requirement, crate::specs::Storing::checked_label, crate::specs::Storing::is_label_key, crate::specs::Storing::is_label_value, crate::specs::Storing::is_name, crate::specs::Storing::is_prefix, crate::specs::Storing::is_dns_label))]
pub fn storing_rows_hold()
    ensures { StoringRowsHold }
{}

/// A selector selects labels exactly if they fit each of its requirements, as the relation of the
/// operator table states.
pub fn selects_by_all()
    ensures { SelectsByAll }
{}

/// A selector without requirements selects all labels.
pub fn empty_selects_all()
    ensures { EmptySelectsAll }
{}
