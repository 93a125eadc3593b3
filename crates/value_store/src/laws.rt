//! The laws of values, each proved as the contract of an empty function.

ghost use Rattle.value_store.specs.Laws.{
  AbsentKeyFits,
  EqualDecides,
  FindIsPlace,
  InsertedInOrder,
  InsertedOnce,
  KeepsOrder,
  LargeRootsRefused,
  OtherNumbersRefused,
  StartIsCanonical,
  StartIsOrdered,
  StartIsStore,
};
ghost use Rattle.value_store.specs.Rows.{StoreRowsHold};

/// Values worked out by hand.
pub fn rows_stand()
    ensures { StoreRowsHold }
{}

/// Two values are deeply equal exactly if they are the same value; a map's value at a key is the value
/// at the key's position; a key that is not in a map can be inserted; a document has a value exactly if
/// its numbers are signed 64-bit integers; and the roots of a review make a store in which the error is
/// at 0 only, false at 2 only and true at 3 only.
#[tactic(auto, using(crate::proofs::Documents::exact, crate::proofs::Equal::equal_decides, crate::proofs::Ordered::start_is_canonical, crate::proofs::Places::absent_fits, crate::proofs::Places::find_place, crate::proofs::Starting::start_is_store))]
pub fn values_are_as_said()
    ensures equal { EqualDecides }
    ensures find { FindIsPlace }
    ensures absent { AbsentKeyFits }
    ensures numbers { OtherNumbersRefused }
    ensures start { StartIsStore }
    ensures canonical { StartIsCanonical }
{}

/// The keys of maps are in byte order without duplicates, in the values of documents that have them so and
/// in every result of a store's calls on such values.
#[tactic(auto, using(crate::proofs::Keys::inserted_in_order, crate::proofs::Keys::inserted_once, crate::proofs::Keys::keeps_order, crate::proofs::Ordered::start_is_ordered))]
pub fn keys_stay_in_order()
    ensures inserted { InsertedInOrder }
    ensures once { InsertedOnce }
    ensures calls { KeepsOrder }
    ensures start { StartIsOrdered }
{}

/// Roots whose sizes exceed the limit together are refused for that.
#[tactic(auto)]
pub fn large_roots_are_refused()
    ensures { LargeRootsRefused }
{}
