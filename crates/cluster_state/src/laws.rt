//! Laws of the definitions. Each is the clause of a function that does nothing.
ghost use Rattle.cluster_state.specs.Laws.{ItemsHaveNoOrder};

/// Two adjacent items may be exchanged: only the order of the items in the state changes.
pub fn items_have_no_order()
    ensures { ItemsHaveNoOrder }
{}
