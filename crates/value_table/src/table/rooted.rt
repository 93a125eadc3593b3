//! Tables whose roots are values of another table.

ghost use Rattle.std.specs.Prelude.{◌≡◌, ◌≤◌, ◌++◌, IfOk};
ghost use Rattle.value_store.specs.Placing.{charge_limit, first_values};
ghost use Rattle.value_table.specs.References.{reference_values, AreReferences};
ghost use Rattle.value_table.specs.Rooted.{picked, HaveValues};
ghost use Rattle.value_table.specs.Start.{StartsWithValues};

use crate::heap::Heap;
use crate::places::place;
use crate::roots::first_places;
use crate::sequence::Sequence;
use crate::table::Table;
use std::alloc::AllocError;

impl Table {
    /// The table that has the values of these references as its roots, with this charge. It shares all values.
    pub fn rooted(self, roots: &[u64; 5], charge: u64) -> Result<Table, AllocError>
        requires values { HaveValues self.values roots.now }
        requires limit { charge ≤ charge_limit }
        ensures { IfOk result (λ t. t ≡ record { values = first_values ++ picked self.values roots.now; charge = charge }) }
    {
        let Table {
            mut heap,
            places,
            charge: _,
        } = self;
        let chosen = chosen_places(&mut heap, &places, roots)?;
        Ok(Table {
            heap,
            places: chosen,
            charge,
        })
    }
}

/// The places of null, false, true and the values of these references.
fn chosen_places(
    heap: &mut Heap,
    places: &Sequence<u64>,
    references: &[u64],
) -> Result<Sequence<u64>, AllocError>
    requires sound { AreReferences heap.old places.now }
    requires values { HaveValues (reference_values heap.old places.now) references.now }
    ensures { IfOk result (λ ps. StartsWithValues heap.new ps (first_values ++ picked (reference_values heap.old places.now) references.now)) }
{
    let mut chosen = first_places(heap)?;
    for reference in references {
        chosen.push(place(heap, places, *reference))?;
    }
    Ok(chosen)
}
