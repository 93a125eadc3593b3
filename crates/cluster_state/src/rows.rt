//! Literal lists, and what the definitions read in them.
ghost use Rattle.cluster_state.specs.Rows.{BindingRowsHold, KindRowsHold, NamespaceRowsHold, ParamRowsHold, StateRowsHold};

/// Policies of states, and refusals.
pub fn state_rows_hold()
    ensures { StateRowsHold }
{}

/// Bindings, and values that are not bindings.
pub fn binding_rows_hold()
    ensures { BindingRowsHold }
{}

/// The table of params.
pub fn param_rows_hold()
    ensures { ParamRowsHold }
{}

/// Scopes of kinds, and known kinds.
pub fn kind_rows_hold()
    ensures { KindRowsHold }
{}

/// The namespaces of requests.
pub fn namespace_rows_hold()
    ensures { NamespaceRowsHold }
{}
