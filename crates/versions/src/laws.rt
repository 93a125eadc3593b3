//! Texts and versions with the values that the definitions give. Each is the clause of a function that does nothing.
ghost use Rattle.versions.specs.Rows.{NormalizedRowsHold, VersionOrderRowsHold, RefusedVersionRowsHold, VersionRowsHold};

/// Versions as they are.
pub fn version_rows_hold()
    ensures { VersionRowsHold }
{}

/// Texts that are not versions.
pub fn refused_rows_hold()
    ensures { RefusedVersionRowsHold }
{}

/// Normalized versions.
pub fn normalized_rows_hold()
    ensures { NormalizedRowsHold }
{}

/// The order of versions.
#[tactic(auto, unfolding(crate::specs::Order::identifier_cmp, crate::specs::Order::identifiers_cmp, crate::specs::Order::pre_cmp, crate::specs::Order::precedence, text_numbers::specs::Numbers::number_after))]
pub fn order_rows_hold()
    ensures { VersionOrderRowsHold }
{}
