//! How many objects of each kind are in lists.
ghost use Rattle.std.proofs.Props.{props};
ghost use Rattle.std.specs.Prelude.{◌≡◌, ◌+◌, ◌&&◌, bytes_eq, filter, length, map, unwrap_or, IfOk, OnOk, if◌then◌else◌};
ghost use Rattle.serde_json.specs.View.{view};
ghost use Rattle.cluster_state.specs.Policies.{param_kind_view, ParamKind as NamedKind};
ghost use Rattle.gatekeeper_runner.specs.Cluster.Telling.{is_of_param_kind, listed, objects_in};
ghost use Rattle.gatekeeper_runner.specs.Cluster.Counts.{count_of, AreCounts};

use cluster_state::ParamKind;
use json_fields::{array_of, field, text};
use serde_json::Value;
use std::alloc::{AllocError, Global};
use std::collections::BTreeMap;

/// Lists, with the number of objects of each kind.
#[derive(Debug, Drop)]
pub struct Listed<'a> {
    pub lists: &'a [Value],
    /// By `apiVersion` and kind.
    counts: BTreeMap<(&'a str, &'a str), usize>,
    ghost counted: { AreCounts counts (map view lists.now) } by { Prim.hlevel props },
}

impl<'a> Listed<'a> {
    pub fn new(alloc: Global, lists: &'a [Value]) -> Result<Listed<'a>, AllocError>
        ensures { IfOk result (λ l. l.lists.now ≡ lists.now) }
    {
        let counts = counts(alloc, lists)?;
        Ok(Listed { lists, counts })
    }

    /// How many objects of this kind are in the lists.
    pub fn count(&self, kind: &ParamKind<'a>) -> usize
        ensures { result ≡ length (listed (param_kind_view kind.now) (map view self.now.lists.now)) }
    {
        count_in(&self.counts, kind)
    }
}

fn count_in<'a>(counts: &BTreeMap<(&'a str, &'a str), usize>, kind: &ParamKind<'a>) -> usize
    ensures { result ≡ count_of counts.now (param_kind_view kind.now) }
{
    let place = (kind.api_version, kind.kind);
    counts.get(&place).copied().unwrap_or(0)
}

/// The numbers of objects in lists.
fn counts<'a>(
    alloc: Global,
    lists: &'a [Value],
) -> Result<BTreeMap<(&'a str, &'a str), usize>, AllocError>
    ensures { IfOk result (λ m. AreCounts m (map view lists.now)) }
{
    let mut counts = BTreeMap::new(alloc);
    for list in lists {
        add_objects(&mut counts, objects_in(list))?;
    }
    Ok(counts)
}

/// Counts objects.
fn add_objects<'a>(
    counts: &mut BTreeMap<(&'a str, &'a str), usize>,
    objects: &'a [Value],
) -> Result<(), AllocError>
    ensures { OnOk result ((k : NamedKind) → count_of counts.new k ≡ count_of counts.old k + length (filter (is_of_param_kind k) (map view objects.now))) }
{
    for object in objects {
        add_object(counts, object)?;
    }
    Ok(())
}

/// Counts an object.
fn add_object<'a>(
    counts: &mut BTreeMap<(&'a str, &'a str), usize>,
    object: &'a Value,
) -> Result<(), AllocError>
    ensures { OnOk result ((k : NamedKind) → count_of counts.new k ≡ count_of counts.old k + (if is_of_param_kind k (view object.now) then 1 else 0)) }
{
    let Some(version) = text(field(object, "apiVersion")) else {
        return Ok(());
    };
    let Some(kind) = text(field(object, "kind")) else {
        return Ok(());
    };
    add_one(counts, version, kind)
}

/// Counts an object of this kind.
fn add_one<'a>(
    counts: &mut BTreeMap<(&'a str, &'a str), usize>,
    version: &'a str,
    kind: &'a str,
) -> Result<(), AllocError>
    ensures { OnOk result ((k : NamedKind) → count_of counts.new k
        ≡ count_of counts.old k + (if bytes_eq version.now k.api_version && bytes_eq kind.now k.kind then 1 else 0)) }
{
    let place = (version, kind);
    let count = one_more(counts.get(&place).copied())?;
    let _old = counts.insert(place, count)?;
    Ok(())
}

/// The next number. No lists hold enough objects to overflow it.
fn one_more(count: Option<usize>) -> Result<usize, AllocError>
    ensures { IfOk result (λ n. n ≡ unwrap_or count 0 + 1) }
{
    match count.unwrap_or(0).checked_add(1) {
        Some(more) => Ok(more),
        None => Err(AllocError),
    }
}

/// The objects in a list.
fn objects_in(list: &Value) -> &[Value]
    ensures { map view result.now ≡ objects_in (view list.now) }
{
    match array_of(field(list, "items")) {
        Some(items) => items,
        None => &[],
    }
}
