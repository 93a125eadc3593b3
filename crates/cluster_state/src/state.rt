//! The state of a cluster.
ghost use Rattle.std.proofs.Props.{props};
ghost use Rattle.std.specs.Prelude.{map};
ghost use Rattle.cluster_state.specs.DataSets.{Data-set};
ghost use Rattle.cluster_state.specs.Items.{item_view};
ghost use Rattle.cluster_state.specs.Numbers.{HasNumbers};

use crate::bindings::Bindings;
use crate::policy::Policy;
use crate::state_items::StateItems;
use crate::state_objects::StateObjects;

/// The contents of a cluster, borrowed from the lists.
#[derive(Debug, Drop)]
pub struct State<'a> {
    pub(crate) items: StateItems<'a>,
    pub(crate) objects: StateObjects<'a>,
    pub(crate) bindings: Bindings<'a>,
    pub(crate) policies: Vec<Policy<'a>>,
    ghost numbered: { HasNumbers (map item_view items.all.items) objects.all.collections } by { Prim.hlevel (props, Data-set) },
}
