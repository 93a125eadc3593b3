//! The two iteration names of a macro.

ghost use Rattle.std.specs.Prelude.{◌≡◌, ◌||◌, IfErr, IfOk, length, string_bytes};
ghost use Rattle.wide_reader.specs.Tree.{view};
ghost use Rattle.wide_translation.specs.Carried.{Translation};
ghost use Rattle.wide_translation.specs.Declarations.{IsRefusal, place_view, scope_in, use_view};
ghost use Rattle.wide_translation.specs.Names.{pair_name as pair_name_in};
ghost use Rattle.wide_translation.specs.Pairs as specs;
ghost use Rattle.wide_translation.specs.Translated.{unless_taken};
ghost use Rattle.wide_translation.specs.Uses.{uses};

use crate::calls::taken_name;
use crate::name_uses::uses;
use crate::names::{Names, is_taken, pair_name, written_name};
use crate::pair_use::PairUse;
use crate::place::Place;
use crate::together::three;
use crate::translation_error::TranslationError;
use std::alloc::{AllocError, Global};
use wide_reader::Wide;

/// The names of a key and a value, and which of them are used.
#[derive(Clone, Copy, Debug)]
pub(crate) struct PairNames<'a> {
    pub(crate) used: PairUse,
    pub(crate) key: &'a str,
    pub(crate) value: &'a str,
}

/// The names inside of the macro, and how they are written.
#[derive(Drop)]
pub(crate) struct PairScope {
    pub(crate) key: String,
    pub(crate) value: String,
    pub(crate) first: Place,
    pub(crate) second: Place,
}

/// Nothing, if both names may be bound.
pub(crate) fn both_free(alloc: Global, key: &str, value: &str) -> Result<(), TranslationError>
    ensures free { IfOk result (λ _. (t : Translation) → unless_taken key.now (unless_taken value.now t) ≡ t) }
    ensures taken { IfErr result (λ e. (t : Translation) → IsRefusal (unless_taken key.now (unless_taken value.now t)) e) }
{
    if is_taken(key) {
        return Err(taken_name(alloc, key));
    }
    if is_taken(value) {
        return Err(taken_name(alloc, value));
    }
    Ok(())
}

impl<'a> PairNames<'a> {
    /// The names, as an expression uses them.
    pub(crate) fn in_one(key: &'a str, value: &'a str, part: &Wide) -> PairNames<'a>
        ensures used { use_view result.used ≡ specs.pair_use (uses key.now (view part.now)) (uses value.now (view part.now)) }
        ensures key { result.key.now ≡ key.now }
        ensures value { result.value.now ≡ value.now }
    {
        let used = PairUse::of(uses(key, part), uses(value, part));
        PairNames { used, key, value }
    }

    /// The names, as two expressions use them.
    pub(crate) fn in_two(
        key: &'a str,
        value: &'a str,
        predicate: &Wide,
        transform: &Wide,
    ) -> PairNames<'a>
        ensures used { use_view result.used ≡ specs.pair_use (uses key.now (view predicate.now) || uses key.now (view transform.now)) (uses value.now (view predicate.now) || uses value.now (view transform.now)) }
        ensures key { result.key.now ≡ key.now }
        ensures value { result.value.now ≡ value.now }
    {
        let uses_key = uses(key, predicate) || uses(key, transform);
        let uses_value = uses(value, predicate) || uses(value, transform);
        PairNames {
            used: PairUse::of(uses_key, uses_value),
            key,
            value,
        }
    }

    /// The names inside of the macro, if the pair has this name.
    fn scope_of(&self, alloc: Global, pair: &str) -> Result<PairScope, AllocError>
        ensures { let u = use_view self.now.used in IfOk result (λ p. (string_bytes p.key ≡ self.now.key.now) × (string_bytes p.value ≡ self.now.value.now) × (place_view p.first ≡ specs.key_place u pair.now) × (place_view p.second ≡ specs.value_place u pair.now)) }
    {
        let (key, value, places) = three(
            String::from_str(alloc, self.key),
            String::from_str(alloc, self.value),
            self.used.places(alloc, pair),
        )?;
        let (first, second) = places;
        Ok(PairScope {
            key,
            value,
            first,
            second,
        })
    }

    /// The names inside of the macro, inside of these names.
    pub(crate) fn scope(&self, alloc: Global, names: &Names) -> Result<PairScope, AllocError>
        ensures { let y = pair_name_in (length (scope_in names.now).names) in let u = use_view self.now.used in IfOk result (λ p. (string_bytes p.key ≡ self.now.key.now) × (string_bytes p.value ≡ self.now.value.now) × (place_view p.first ≡ specs.key_place u y) × (place_view p.second ≡ specs.value_place u y)) }
    {
        let pair = pair_name(alloc, names)?;
        self.scope_of(alloc, pair.as_str())
    }

    /// The iteration name of the macro that the translation writes, inside of these names.
    pub(crate) fn binder(&self, alloc: Global, names: &Names) -> Result<String, AllocError>
        ensures { IfOk result (λ n. string_bytes n ≡ specs.pair_binder (use_view self.now.used) self.now.key.now self.now.value.now (scope_in names.now)) }
    {
        match self.used {
            PairUse::ValuesOnly => written_name(alloc, self.value),
            PairUse::KeysOnly => written_name(alloc, self.key),
            PairUse::Both => pair_name(alloc, names),
        }
    }
}
