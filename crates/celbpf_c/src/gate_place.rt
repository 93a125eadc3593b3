//! The place for a gate, in the caller's memory.
ghost use Rattle.std.specs.Prelude.{◌≡◌, option_map, Option, Some, None};
ghost use Rattle.admission.specs.GatePolicies.{GatePolicy};
ghost use Rattle.celbpf_c.specs.Places.{owned_by_place};

use crate::box_parts::BoxParts;
use admission::Gate;
use std::alloc::Global;
use std::marker::Model;
use std::ptr::null_mut;

/// A place for a gate. In C it is a struct with one pointer, which is null while the place is
/// empty. The allocator has no size.
#[repr(C)]
pub struct GatePlace {
    at: *mut u8,
    alloc: Global,
    pub ghost gate: { Option GatePolicy },
}

impl Model for GatePlace {
    ghost also_owns = { λ p. owned_by_place p.alloc p.gate p.at };
}

impl GatePlace {
    /// An empty place.
    pub fn empty(alloc: Global) -> GatePlace
        ensures { result.gate ≡ None }
    {
        GatePlace {
            at: null_mut(),
            alloc,
        }
    }

    /// Takes the gate out of the place, which is then empty.
    pub fn take(&mut self, alloc: Global) -> Option<Box<Gate>>
        ensures taken { option_map (λ b. b.value) result ≡ self.old.gate }
        ensures empty { self.new.gate ≡ None }
    {
        std::mem::replace(self, GatePlace::empty(alloc)).into_gate()
    }

    /// Puts a gate into the place. An earlier gate is dropped.
    pub fn put(&mut self, gate: Box<Gate>)
        ensures { self.new.gate ≡ Some gate.value }
    {
        drop(std::mem::replace(self, GatePlace::of(gate)).into_gate());
    }

    /// The place with this gate.
    fn of(gate: Box<Gate>) -> GatePlace
        ensures { result.gate ≡ Some gate.value }
    {
        GatePlace::of_parts(BoxParts::of(gate))
    }

    /// The gate in the place.
    pub fn into_gate(self) -> Option<Box<Gate>>
        ensures { option_map (λ b. b.value) result ≡ self.gate }
    {
        match self.into_parts() {
            Some(parts) => Some(parts.into_box()),
            None => None,
        }
    }

    fn of_parts(parts: BoxParts<Gate, Global>) -> GatePlace
        ensures { result.gate ≡ Some parts.value }
    {
        let BoxParts { ptr, alloc } = parts;
        GatePlace {
            at: ptr as *mut u8,
            alloc,
        }
    }

    fn into_parts(self) -> Option<BoxParts<Gate, Global>>
        ensures { option_map (λ p. p.value) result ≡ self.gate }
    {
        let GatePlace { at, alloc } = self;
        if at.is_null() {
            None
        } else {
            Some(BoxParts {
                ptr: at as *mut Gate,
                alloc,
            })
        }
    }
}
