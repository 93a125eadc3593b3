//! The effect of a row on its operands.
ghost use Rattle.std.specs.Prelude.{◌≡◌};
ghost use Rattle.helper_table.specs.Outcome.{truth_word};
ghost use Rattle.helper_table.specs.declared.placement.Placement.TheVariants as placement;

use crate::placement::Placement;

/// What a call has to do, and what it adds to the charge of 1.
#[derive(Clone, Copy)]
pub(crate) struct HelperEffect<'a> {
    pub(crate) placement: Placement<'a>,
    pub(crate) added: u64,
}

impl<'a> HelperEffect<'a> {
    /// An effect that adds nothing to the charge.
    pub(crate) fn free(placement: Placement<'a>) -> HelperEffect<'a>
        ensures placement { result.placement ≡ placement.entry }
        ensures added { result.added ≡ 0 }
    {
        HelperEffect {
            placement,
            added: 0,
        }
    }

    /// A word, with nothing added to the charge.
    pub(crate) fn word(word: u64) -> HelperEffect<'a>
        ensures placement { result.placement ≡ placement.Word word }
        ensures added { result.added ≡ 0 }
    {
        HelperEffect::free(Placement::Word(word))
    }

    /// An int, with nothing added to the charge.
    pub(crate) fn int(n: i64) -> HelperEffect<'a>
        ensures placement { result.placement ≡ placement.Int n }
        ensures added { result.added ≡ 0 }
    {
        HelperEffect::free(Placement::Int(n))
    }

    /// The reference of a bool, or of the error if there is none.
    pub(crate) fn truth(answer: Option<bool>) -> HelperEffect<'a>
        ensures placement { result.placement ≡ placement.Word (truth_word answer) }
        ensures added { result.added ≡ 0 }
    {
        match answer {
            Some(false) => HelperEffect::word(2),
            Some(true) => HelperEffect::word(3),
            None => HelperEffect::word(0),
        }
    }
}
