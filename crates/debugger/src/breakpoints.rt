//! The slots with a breakpoint.
ghost use Rattle.std.specs.Prelude.{◌≡◌, false, OnErr, OnOk, []};
ghost use Rattle.debugger.specs.Breakpoints.{has_breakpoint, with_breakpoint, without_breakpoint};

use smallvec::SmallVec;
use std::alloc::{AllocError, Global};
use std::marker::Model;

/// The slots with a breakpoint, in ascending order without duplicates. Up to eight need no allocation.
#[derive(Drop)]
pub struct Breakpoints {
    slots: SmallVec<u64, 8>,
}

impl Model for Breakpoints {
    ghost use Rattle.std.specs.Prelude.{◌≡◌, ℕ, List, true};
    ghost use Rattle.std.specs.Coded.{codes};
    ghost use Rattle.debugger.specs.Breakpoints.{in_order};

    ghost Value = { List ℕ };

    ghost view = { λ b. b.slots.items };

    ghost invariant = { λ b. in_order b.slots.items ≡ true };
}

impl Breakpoints {
    /// No breakpoints. Allocates nothing.
    pub fn new(alloc: Global) -> Breakpoints
        ensures { result ≡ [] }
    {
        Breakpoints {
            slots: SmallVec::new(alloc),
        }
    }

    pub fn as_slice(&self) -> &[u64]
        ensures { result.now ≡ self.now }
    {
        self.slots.as_slice()
    }

    /// Sets a breakpoint at this slot. Allocates only if it has none yet.
    pub fn set(&mut self, slot: u64) -> Result<(), AllocError>
        ensures ok { OnOk result (self.new ≡ with_breakpoint slot self.old) }
        ensures err { OnErr result (self.new ≡ self.old) }
        ensures refused { OnErr result (has_breakpoint slot self.old ≡ false) }
    {
        // If the slot is not found, the search returns the position for it.
        let Err(place) = self.slots.as_slice().binary_search(&slot) else {
            return Ok(());
        };
        self.slots.insert(place, slot)?;
        Ok(())
    }

    /// Clears the breakpoint at this slot, if any.
    pub fn clear(&mut self, slot: u64)
        ensures { self.new ≡ without_breakpoint slot self.old }
    {
        self.slots.retain(|s| *s != slot);
    }
}
