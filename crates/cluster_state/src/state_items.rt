//! The items of a state.
ghost use Rattle.std.proofs.Props.{props};
ghost use Rattle.std.specs.Prelude.{◌≡◌, map, IfOk, OnOk, Some, if◌then◌else◌};
ghost use Rattle.cluster_state.specs.Items.{item_view};
ghost use Rattle.cluster_state.specs.Policies.{param_kind_view, ParamKind as NamedKind};
ghost use Rattle.cluster_state.specs.Shapes.{is_of_group, shape_of, shape_with, ShowAll, Shows};

use crate::item::{Item, group_in};
use crate::param_kind::ParamKind;
use crate::shape::Shape;
use std::alloc::{AllocError, Global};
use std::collections::BTreeMap;

/// All items, as they are listed.
#[derive(Debug, Drop)]
pub(crate) struct StateItems<'a> {
    pub(crate) all: Vec<Item<'a>>,
    /// What the items of each group and kind show.
    shapes: BTreeMap<(&'a [u8], &'a str), Shape<'a>>,
    ghost shown: { ShowAll shapes all.items } by { Prim.hlevel props },
}

impl<'a> StateItems<'a> {
    pub(crate) fn new(alloc: Global, all: Vec<Item<'a>>) -> Result<StateItems<'a>, AllocError>
        ensures { IfOk result (λ i. i.all.items ≡ all.entry.items) }
    {
        let shapes = shapes(alloc, &all)?;
        Ok(StateItems { all, shapes })
    }

    /// What the items of the group and name of this kind show.
    pub(crate) fn shape(&self, kind: &ParamKind<'a>) -> Option<Shape<'a>>
        ensures { Shows (param_kind_view kind.now) (map item_view self.now.all.items) result }
    {
        shape_in(&self.shapes, kind)
    }
}

fn shape_in<'a>(
    shapes: &BTreeMap<(&'a [u8], &'a str), Shape<'a>>,
    kind: &ParamKind<'a>,
) -> Option<Shape<'a>>
    ensures { result ≡ shape_of shapes.now (param_kind_view kind.now) }
{
    let place = (group_in(kind.api_version.as_bytes()), kind.kind);
    shapes.get(&place).copied()
}

/// What items show.
fn shapes<'a>(
    alloc: Global,
    items: &[Item<'a>],
) -> Result<BTreeMap<(&'a [u8], &'a str), Shape<'a>>, AllocError>
    ensures { IfOk result (λ m. ShowAll m items.now) }
{
    let mut shapes = BTreeMap::new(alloc);
    for item in items {
        add_item(&mut shapes, item)?;
    }
    Ok(shapes)
}

/// Adds an item to what those of its group and kind show.
fn add_item<'a>(
    shapes: &mut BTreeMap<(&'a [u8], &'a str), Shape<'a>>,
    item: &Item<'a>,
) -> Result<(), AllocError>
    ensures { OnOk result ((k : NamedKind) → shape_of shapes.new k ≡ (if is_of_group k item.now then Some (shape_with (shape_of shapes.old k) item.now) else shape_of shapes.old k)) }
{
    let place = (group_in(item.api_version.as_bytes()), item.kind);
    let shape = with_item(shapes.get(&place).copied(), item);
    let _old = shapes.insert(place, shape)?;
    Ok(())
}

/// What the items show with one more.
fn with_item<'a>(shape: Option<Shape<'a>>, item: &Item<'a>) -> Shape<'a>
    ensures { result ≡ shape_with shape.entry item.now }
{
    match shape {
        Some(shape) => Shape {
            api_version: item.api_version,
            differs: shape.differs || shape.api_version != item.api_version,
            is_namespaced: shape.is_namespaced || !item.namespace.is_empty(),
        },
        None => Shape {
            api_version: item.api_version,
            differs: false,
            is_namespaced: !item.namespace.is_empty(),
        },
    }
}
