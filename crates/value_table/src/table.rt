//! The table of a program's values.

ghost use Rattle.std.specs.Prelude.{◌≡◌, ◌≤◌, ◌++◌, map, IfOk};
ghost use Rattle.std.specs.List.{AllByRecursion};
ghost use Rattle.serde_json.specs.View.{view};
ghost use Rattle.value_store.specs.Placing.{charge_limit, first_values};
ghost use Rattle.value_store.specs.Plain.{plain_value};
ghost use Rattle.value_store.specs.Roots.{start_contents, StoreStarts};
ghost use Rattle.value_store.specs.Value.{value};
ghost use Rattle.value_table.specs.Held.{held_contents};
ghost use Rattle.value_table.specs.Meaning.{reference_of};
ghost use Rattle.value_table.specs.References.{reference_values, AreReferences};
ghost use Rattle.value_table.specs.Start.{IsWelcome};

mod rooted;
mod width;

use crate::content::Content;
use crate::heap::Heap;
use crate::places::{next_reference, place, place_of};
use crate::roots::{copies, start_places};
use crate::sequence::Sequence;
use serde_json::Value;
use std::alloc::{AllocError, Global};
use std::marker::Model;
use value_store::{JSON_LENGTH_LIMIT, Shape, TableError, ValueStore, start_charge};

/// The values of a program, by reference. Copies of a table share its cells, texts, lists and maps
/// until one of them grows.
#[derive(Drop)]
pub struct Table {
    heap: Heap,
    /// The places of the cells, for the references from 1 on.
    places: Sequence<u64>,
    charge: u64,
}

impl Model for Table {
    ghost use Rattle.std.specs.Coded.{codes};
    ghost use Rattle.value_store.specs.Codes.{coded_stored};
    ghost use Rattle.value_table.specs.Held.{Held};

    ghost Value = { Held };

    ghost coded = { Prim.hlevel (codes, coded_stored) };

    ghost use Rattle.std.specs.Prelude.{◌≤◌};
    ghost use Rattle.value_store.specs.Placing.{charge_limit};
    ghost use Rattle.value_table.specs.References.{reference_values, AreReferences};

    ghost view = { λ t. record { values = reference_values t.heap t.places; charge = t.charge } };

    ghost invariant = { λ t. AreReferences t.heap t.places × (t.charge ≤ charge_limit) };
}

impl Table {
    /// The table of the five roots of a review. The roots object, oldObject, params,
    /// namespaceObject and request have the references 4 to 8. Their sizes are charged. The
    /// recursion is as deep as the documents.
    ///
    /// The first refusal of a root is returned: `NotAnObject` if it is neither an object nor null,
    /// `NumberOutOfInt64` if it has a number that is not a 64-bit signed integer (`-0` is not).
    /// Then `RootsTooLarge` if the charge exceeds 16,777,216. All this is checked before anything
    /// is allocated.
    #[tactic(auto, using(crate::proofs::Starting::refused_as, crate::proofs::Starting::no_memory_for, crate::proofs::Starting::judged))]
    pub fn of_roots(alloc: Global, roots: &[Value; 5]) -> Result<Table, TableError>
        ensures { StoreStarts held_contents (start_contents (map view roots.now)) result }
    {
        let charge = start_charge(roots)?;
        let table = Table::charged(alloc, copies(roots)?, charge)?;
        Ok(table)
    }

    /// The table of these places of a heap, with this charge. The first places are those of null, false
    /// and true.
    pub fn of_parts(heap: Heap, places: Sequence<u64>, charge: u64) -> Table
        requires references { AreReferences heap places }
        requires limit { charge ≤ charge_limit }
        ensures { result ≡ record { values = reference_values heap places; charge = charge } }
    {
        Table {
            heap,
            places,
            charge,
        }
    }

    // The table of documents whose sizes are charged.
    fn charged(alloc: Global, roots: [Value; 5], charge: u64) -> Result<Table, AllocError>
        requires welcome { AllByRecursion IsWelcome (map view roots) }
        requires limit { charge ≤ charge_limit }
        ensures { IfOk result (λ t. t ≡ record { values = first_values ++ map value (map plain_value (map view roots)); charge = charge }) }
    {
        let mut heap = Heap::new(alloc)?;
        let places = start_places(&mut heap, roots)?;
        Ok(Table {
            heap,
            places,
            charge,
        })
    }
}

impl ValueStore for Table {
    ghost values = { λ t. t.values };

    ghost charge = { λ t. t.charge };

    fn len(&self) -> u64 {
        next_reference(&self.places)
    }

    fn charge(&self) -> u64 {
        self.charge
    }

    fn spend(&mut self, n: u64) {
        self.charge += n;
    }

    fn at(&self, h: u64) -> Option<Shape<'_>> {
        match place_of(&self.places, h) {
            Some(place) => Some(self.heap.shape(place)),
            None if h == 0 => Some(Shape::Error),
            None => None,
        }
    }

    fn text(&self, h: u64) -> Option<&str> {
        match place_of(&self.places, h) {
            Some(place) => self.heap.text(place),
            None => None,
        }
    }

    fn depth(&self, h: u64) -> u64 {
        match place_of(&self.places, h) {
            Some(place) => self.heap.cell(place).depth,
            None => 0,
        }
    }

    fn equal(&mut self, a: u64, b: u64) -> bool {
        let left = place(&self.heap, &self.places, a);
        let right = place(&self.heap, &self.places, b);
        self.heap.equal(left, right)
    }

    fn less(&self, a: u64, b: u64) -> bool {
        let left = place(&self.heap, &self.places, a);
        let right = place(&self.heap, &self.places, b);
        self.heap.less(left, right)
    }

    fn member(&mut self, x: u64, c: u64) -> bool {
        let value = place(&self.heap, &self.places, x);
        let container = place(&self.heap, &self.places, c);
        self.heap.member(value, container)
    }

    fn find(&self, m: u64, key: &[u8]) -> Option<u64> {
        let map = place(&self.heap, &self.places, m);
        self.heap.find(map, key)
    }

    fn json(&self, h: u64) -> Result<String, AllocError> {
        let alloc = self.places.alloc();
        match place_of(&self.places, h) {
            Some(place) => self.heap.json(alloc, place),
            None => String::from_str(alloc, "error"),
        }
    }

    fn json_length(&self, h: u64) -> u64 {
        match place_of(&self.places, h) {
            Some(place) => self.heap.cell(place).json.min(JSON_LENGTH_LIMIT),
            None => 5,
        }
    }

    fn place_int(&mut self, n: i64) -> Result<u64, AllocError> {
        let places = self.places.room()?;
        let place = self.heap.add_int(n)?;
        Ok(places.append(place) + 1)
    }

    fn place_text(&mut self, s: &str) -> Result<u64, AllocError> {
        let places = self.places.room()?;
        let place = self.heap.add_text(s)?;
        Ok(places.append(place) + 1)
    }

    fn alias(&mut self, h: u64, i: u64) -> Result<u64, AllocError> {
        let whole = place(&self.heap, &self.places, h);
        let part = self.heap.part(whole, i);
        match first_reference(self.heap.cell(part).content) {
            Some(reference) => Ok(reference),
            None => {
                let reference = next_reference(&self.places);
                self.places.push(part)?;
                Ok(reference)
            }
        }
    }

    fn alias_key(&mut self, h: u64, i: u64) -> Result<u64, AllocError> {
        let map = place(&self.heap, &self.places, h);
        let key = self.heap.key(map, i);
        let places = self.places.room()?;
        let place = self.heap.add_part(key)?;
        Ok(places.append(place) + 1)
    }

    #[tactic(auto, using(crate::proofs::Named::added_placed, crate::proofs::Named::join_due))]
    fn join(&mut self, a: u64, b: u64) -> Result<u64, AllocError> {
        let first = place(&self.heap, &self.places, a);
        let second = place(&self.heap, &self.places, b);
        let places = self.places.room()?;
        let place = self.heap.join(first, second)?;
        Ok(places.append(place) + 1)
    }

    fn new_list(&mut self) -> Result<u64, AllocError> {
        let places = self.places.room()?;
        let place = self.heap.new_list()?;
        Ok(places.append(place) + 1)
    }

    fn new_map(&mut self) -> Result<u64, AllocError> {
        let places = self.places.room()?;
        let place = self.heap.new_map()?;
        Ok(places.append(place) + 1)
    }

    #[tactic(auto, using(crate::proofs::Named::added_placed, crate::proofs::Named::push_due))]
    fn push(&mut self, l: u64, x: u64) -> Result<u64, AllocError> {
        let list = place(&self.heap, &self.places, l);
        let item = place(&self.heap, &self.places, x);
        let places = self.places.room()?;
        let place = self.heap.push(list, item)?;
        Ok(places.append(place) + 1)
    }

    #[tactic(auto, using(crate::proofs::Named::added_placed, crate::proofs::Named::put_due))]
    fn put(&mut self, m: u64, k: u64, x: u64) -> Result<u64, AllocError> {
        let map = place(&self.heap, &self.places, m);
        let key = place(&self.heap, &self.places, k);
        let value = place(&self.heap, &self.places, x);
        let places = self.places.room()?;
        let place = self.heap.put(map, key, value)?;
        Ok(places.append(place) + 1)
    }

    fn copy(&self) -> Result<Self, AllocError> {
        Ok(Table {
            heap: self.heap.copy()?,
            places: self.places.clone()?,
            charge: self.charge,
        })
    }
}

// The reference of null, false or true. These values are stored only once.
fn first_reference(content: Content) -> Option<u64>
    ensures { result ≡ reference_of content }
{
    match content {
        Content::Null => Some(1),
        Content::Bool(false) => Some(2),
        Content::Bool(true) => Some(3),
        _ => None,
    }
}
