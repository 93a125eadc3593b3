//! The slots at which a run stops.
ghost use Rattle.std.specs.Prelude.{◌≡◌, length, ◌==◌, nat_eq};
ghost use Rattle.std.specs.List.{list_any};

use std::marker::Model;

/// The slots at which a run stops, and whether they are sorted, so that a binary search finds one.
#[derive(Drop)]
pub(crate) struct Stops<'a> {
    slots: &'a [u64],
    rise: bool,
}

impl<'a> Model for Stops<'a> {
    ghost use Rattle.std.specs.Prelude.{ℕ, List, IsTrue};
    ghost use Rattle.std.specs.List.Sorted.{IsNonDecreasing};

    ghost Value = { List ℕ };

    ghost view = { λ s. s.slots.now };

    ghost invariant = { λ s. IsTrue s.rise → IsNonDecreasing s.slots.now };
}

impl<'a> Stops<'a> {
    /// These slots. They are checked for being sorted here, once.
    pub(crate) fn of(slots: &'a [u64]) -> Stops<'a>
        ensures { result ≡ slots.now }
    {
        let rise = slots.is_sorted();
        Stops { slots, rise }
    }

    pub(crate) fn is_empty(&self) -> bool
        ensures { result ≡ (length self.now == 0) }
    {
        self.slots.is_empty()
    }

    /// Whether this is one of the slots.
    pub(crate) fn contains(&self, slot: u64) -> bool
        ensures { result ≡ list_any (nat_eq slot) self.now }
    {
        if self.rise {
            self.slots.binary_search(&slot).is_ok()
        } else {
            self.slots.contains(&slot)
        }
    }
}
