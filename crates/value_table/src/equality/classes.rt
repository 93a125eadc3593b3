//! Classes of places that are known to hold equal values (union-find).

ghost use Rattle.std.specs.Prelude.{◌≡◌, ◌≤◌, List, nat_lt, slice_get, slice_set, if◌then◌else◌};
ghost use Rattle.value_store.specs.Value.{Value};
ghost use Rattle.value_table.specs.Equality.{Finds, LeadDown, way_down};
ghost use Rattle.value_table.specs.Heaps.{AreSame};

/// The parent of a place, or the place itself at a root.
fn below(same: &[u64], place: u64) -> u64
    ensures not_above { result ≤ place }
    ensures value { (vs : List Value) → AreSame vs same.now → slice_get vs result ≡ slice_get vs place }
    ensures down { result ≡ way_down (slice_get same.now place) place }
{
    match same.get(place as usize) {
        Some(next) if *next < place => *next,
        _ => place,
    }
}

/// The representative of a place's class. Shortens the path to it.
pub(crate) fn representative(same: &mut [u64], place: u64) -> u64
    ensures not_above { result ≤ place }
    ensures value { (vs : List Value) → AreSame vs same.old → AreSame vs same.new × (slice_get vs result ≡ slice_get vs place) }
    ensures classes { LeadDown same.old → Finds same.old same.new place result }
{
    let mut here = place;
    let mut next = below(same, here);
    while next < here {
        let further = below(same, next);
        point(same, here, further);
        here = next;
        next = below(same, here);
    }
    here
}

// Sets the parent of a place, to an earlier place with an equal value.
fn point(same: &mut [u64], place: u64, target: u64)
    requires { target ≤ place }
    ensures value { (vs : List Value) → AreSame vs same.old → slice_get vs target ≡ slice_get vs place → AreSame vs same.new }
    ensures word { same.new ≡ slice_set same.old place target }
{
    if (place as usize) < same.len() {
        same[place as usize] = target;
    }
}

/// Joins the classes of two representatives.
pub(crate) fn unite(same: &mut [u64], a: u64, b: u64)
    ensures value { (vs : List Value) → AreSame vs same.old → slice_get vs a ≡ slice_get vs b → AreSame vs same.new }
    ensures word { same.new ≡ (if nat_lt a b then slice_set same.old b a else slice_set same.old a b) }
{
    if a < b {
        point(same, b, a);
    } else {
        point(same, a, b);
    }
}
