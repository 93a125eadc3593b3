//! The laws of the tokens, each proved as the contract of an empty function.

ghost use Rattle.wide_tokens.specs.Laws.{WideHasOneEnd, WideEndsInItsTokens, WideHasOneReading};

/// The outcome of a text is unique: its tokens or one error; it is tokens exactly if these are the text's tokens and
/// both are within the limits; and a text has one list of tokens.
#[tactic(auto, using(crate::proofs::OneReading::one_end, crate::proofs::OneReading::ends_in_tokens, crate::proofs::OneReading::one_reading))]
pub fn one_reading()
    ensures one_end { WideHasOneEnd }
    ensures tokens { WideEndsInItsTokens }
    ensures one_list { WideHasOneReading }
{}
