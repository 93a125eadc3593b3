//! Which names of a macro with two names are used.

ghost use Rattle.std.specs.Prelude.{◌≡◌, IfOk};
ghost use Rattle.wide_translation.specs.Declarations.{place_view, use_view};
ghost use Rattle.wide_translation.specs.Pairs as specs;

use crate::place::Place;
use crate::together::both;
use std::alloc::{AllocError, Global};
use wide_kinds::ValueKind;

/// Which of the names of a key and a value an expression uses.
#[derive(Clone, Copy, Debug, PartialEq, Eq)]
pub(crate) enum PairUse {
    /// The second or none.
    ValuesOnly,
    /// The first alone.
    KeysOnly,
    Both,
}

impl PairUse {
    /// By whether the first and the second are used.
    pub(crate) fn of(key: bool, value: bool) -> PairUse
        ensures { use_view result ≡ specs.pair_use key value }
    {
        match (key, value) {
            (false, _) => PairUse::ValuesOnly,
            (true, false) => PairUse::KeysOnly,
            (true, true) => PairUse::Both,
        }
    }

    /// How the first name is written, if the pair has this name.
    pub(crate) fn key_place(self, alloc: Global, pair: &str) -> Result<Place, AllocError>
        ensures { IfOk result (λ p. place_view p ≡ specs.key_place (use_view self) pair.now) }
    {
        match self {
            PairUse::ValuesOnly => Ok(Place::Unused),
            PairUse::KeysOnly => Ok(Place::Itself(ValueKind::Dyn)),
            PairUse::Both => Ok(Place::Key(String::from_str(alloc, pair)?)),
        }
    }

    /// How the second name is written.
    pub(crate) fn value_place(self, alloc: Global, pair: &str) -> Result<Place, AllocError>
        ensures { IfOk result (λ p. place_view p ≡ specs.value_place (use_view self) pair.now) }
    {
        match self {
            PairUse::ValuesOnly => Ok(Place::Itself(ValueKind::Dyn)),
            PairUse::KeysOnly => Ok(Place::Unused),
            PairUse::Both => Ok(Place::Value(String::from_str(alloc, pair)?)),
        }
    }

    /// How both names are written.
    pub(crate) fn places(self, alloc: Global, pair: &str) -> Result<(Place, Place), AllocError>
        ensures { IfOk result (λ p. (place_view p.0 ≡ specs.key_place (use_view self) pair.now) × (place_view p.1 ≡ specs.value_place (use_view self) pair.now)) }
    {
        both(self.key_place(alloc, pair), self.value_place(alloc, pair))
    }
}
