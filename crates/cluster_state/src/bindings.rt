//! The bindings of a cluster.
ghost use Rattle.std.specs.Prelude.{◌≡◌, ◌++◌, ℕ, [], ◌∷◌, List, map, bytes_eq, IfOk, OnOk, if◌then◌else◌};
ghost use Rattle.std.specs.Option.{option_map_or};
ghost use Rattle.cluster_state.specs.Indexes.{FindsBindings, bindings_at, bound_to, places_for};

use crate::binding::Binding;
use std::alloc::{AllocError, Global};
use std::collections::BTreeMap;
use std::marker::Model;

/// All bindings, in the order of their names.
#[derive(Debug, Drop)]
pub(crate) struct Bindings<'a> {
    all: Vec<Binding<'a>>,
    /// The places of a policy's bindings, by the policy's name.
    places: BTreeMap<&'a str, Vec<usize>>,
}

impl<'a> Model for Bindings<'a> {
    ghost use Rattle.std.specs.Prelude.{List};
    ghost use Rattle.cluster_state.specs.Indexes.{FindsBindings};
    ghost use Rattle.cluster_state.specs.declared.binding.Binding.{Binding};

    ghost Value = { List Binding };

    ghost view = { λ b. b.all.items };

    ghost invariant = { λ b. FindsBindings b.places b.all.items b.all.items };
}

impl<'a> Bindings<'a> {
    pub(crate) fn new(alloc: Global, all: Vec<Binding<'a>>) -> Result<Bindings<'a>, AllocError>
        ensures { IfOk result (λ b. b ≡ all.entry.items) }
    {
        let places = places(alloc, &all)?;
        Ok(Bindings { all, places })
    }

    pub(crate) fn all(&self) -> &[Binding<'a>]
        ensures { result.now ≡ self.now }
    {
        &self.all
    }

    /// The bindings of the policy with this name.
    pub(crate) fn bound_to(
        &self,
        alloc: Global,
        name: &str,
    ) -> Result<Vec<&Binding<'a>>, AllocError>
        ensures { IfOk result (λ v. map (λ b. b.now) v.items ≡ bound_to name.now self.now) }
    {
        match self.places.get(name) {
            Some(places) => bindings_at(alloc, &self.all, places),
            None => Ok(Vec::new(alloc)),
        }
    }
}

/// The bindings at these places.
fn bindings_at<'b, 'a>(
    alloc: Global,
    all: &'b [Binding<'a>],
    places: &[usize],
) -> Result<Vec<&'b Binding<'a>>, AllocError>
    ensures { IfOk result (λ v. map (λ b. b.now) v.items ≡ bindings_at all.now places.now) }
{
    let mut found = Vec::with_capacity(alloc, places.len())?;
    for place in places {
        push_at(&mut found, all, *place)?;
    }
    Ok(found)
}

/// Adds the binding at this place.
fn push_at<'b, 'a>(
    found: &mut Vec<&'b Binding<'a>>,
    all: &'b [Binding<'a>],
    place: usize,
) -> Result<(), AllocError>
    ensures { OnOk result (map (λ b. b.now) found.new.items ≡ map (λ b. b.now) found.old.items ++ bindings_at all.now (place ∷ [])) }
{
    match all.get(place) {
        Some(binding) => {
            found.push(binding)?;
            Ok(())
        }
        None => Ok(()),
    }
}

/// The places of the bindings of each policy.
fn places<'a>(
    alloc: Global,
    all: &[Binding<'a>],
) -> Result<BTreeMap<&'a str, Vec<usize>>, AllocError>
    ensures { IfOk result (λ index. FindsBindings index all.now all.now) }
{
    let mut places = BTreeMap::new(alloc);
    let mut place = 0;
    for binding in all {
        add_place(alloc, &mut places, binding.policy_name, place)?;
        place += 1;
    }
    Ok(places)
}

/// Adds a place for this name.
fn add_place<'a>(
    alloc: Global,
    places: &mut BTreeMap<&'a str, Vec<usize>>,
    name: &'a str,
    place: usize,
) -> Result<(), AllocError>
    ensures { OnOk result ((n : List ℕ) → places_for places.new n ≡ (if bytes_eq name.now n then places_for places.old n ++ place ∷ [] else places_for places.old n)) }
{
    let mut found = places_or_none(alloc, places.remove(name));
    found.push(place)?;
    places.insert(name, found)?;
    Ok(())
}

fn places_or_none(alloc: Global, places: Option<Vec<usize>>) -> Vec<usize>
    ensures { result.items ≡ option_map_or (λ v. v.items) places [] }
{
    match places {
        Some(places) => places,
        None => Vec::new(alloc),
    }
}
