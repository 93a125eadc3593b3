//! What a state holds.
ghost use Rattle.std.specs.Prelude.{◌≡◌, map, IfOk};
ghost use Rattle.serde_json.specs.View.{view};
ghost use Rattle.cluster_state.specs.Bindings.{binding_view, bindings_of};
ghost use Rattle.cluster_state.specs.Items.{item_view};
ghost use Rattle.cluster_state.specs.Policies.{policy_view};
ghost use Rattle.cluster_state.specs.State.{StateReads, state_of, state_view};

use crate::binding::Binding;
use crate::bindings::Bindings;
use crate::item::Item;
use crate::lists::items;
use crate::policy::Policy;
use crate::reading::{bindings, objects, policies};
use crate::state::State;
use crate::state_error::StateError;
use crate::state_items::StateItems;
use crate::state_objects::StateObjects;
use serde_json::Value;
use std::alloc::{AllocError, Global};

impl<'a> State<'a> {
    /// Reads the state in lists as `kubectl get -o json` prints them.
    ///
    /// # Errors
    ///
    /// The first cause of `StateError`.
    pub fn read(alloc: Global, lists: &'a [Value]) -> Result<State<'a>, StateError>
        ensures { StateReads (state_of (map view lists.now)) result }
    {
        let items = items(alloc, lists)?;
        let objects = objects(alloc, &items)?;
        let bindings = bindings(alloc, &objects)?;
        let policies = policies(alloc, &objects, &bindings)?;
        let bindings = Bindings::new(alloc, bindings)?;
        let items = StateItems::new(alloc, items)?;
        let objects = StateObjects::new(alloc, objects)?;
        Ok(State {
            items,
            objects,
            bindings,
            policies,
        })
    }

    /// All items, as they are listed.
    pub fn items(&self) -> &[Item<'a>]
        ensures { map item_view result.now ≡ (state_view self.now).items }
    {
        &self.items.all
    }

    /// All bindings, in the order of their names.
    pub fn bindings(&self) -> &[Binding<'a>]
        ensures { map binding_view result.now ≡ (state_view self.now).bindings }
    {
        self.bindings.all()
    }

    /// The bindings of the policy with this name, in the order of their names.
    pub fn bindings_of(&self, alloc: Global, policy: &str) -> Result<Vec<&Binding<'a>>, AllocError>
        ensures { IfOk result (λ v. map (λ b. binding_view b.now) v.items ≡ bindings_of policy.now (state_view self.now).bindings) }
    {
        self.bindings.bound_to(alloc, policy)
    }

    /// The policies that have a binding, in the order of their names.
    pub fn policies(&self) -> &[Policy<'a>]
        ensures { map policy_view result.now ≡ (state_view self.now).policies }
    {
        &self.policies
    }
}
