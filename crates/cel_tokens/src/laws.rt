//! The laws of the tokens, each proved as the contract of an empty function.

ghost use Rattle.cel_tokens.specs.Laws.{HasOneEnd, EndsInItsTokens, HasOneReading, HasIntsThatFit};
ghost use Rattle.cel_tokens.specs.TextLiterals.{SaysItsPieces};
ghost use Rattle.cel_tokens.specs.Longest.{NoLongerName, NoLongerInt, NoLongerHex};
ghost use Rattle.cel_tokens.specs.Escapes.{NamesItsCodePoint};
ghost use Rattle.cel_tokens.specs.Gaps.{IsLongestGap};
ghost use Rattle.cel_tokens.specs.SignedInts.{HasPrefixPosition, HasPlainMinus, HasNegatedInt, HasWideInt};
ghost use Rattle.cel_tokens.specs.AsWritten.{FindsWhatStands, NothingElseStands};

/// The outcome of a text is unique: its tokens or one error; it is tokens exactly if these are the text's tokens and
/// both are within the limits; and a text has one list of tokens.
#[tactic(auto, using(crate::proofs::OneReading::one_end, crate::proofs::OneReading::ends_in_tokens, crate::proofs::OneReading::one_reading))]
pub fn one_reading()
    ensures one_end { HasOneEnd }
    ensures tokens { EndsInItsTokens }
    ensures one_list { HasOneReading }
{}

/// Every int among a text's tokens is a signed 64-bit integer.
#[tactic(auto, using(crate::proofs::IntsFit::lexemes_fit))]
pub fn ints_that_fit()
    ensures { HasIntsThatFit }
{}

/// The token at a position is no shorter than any name or int there.
#[tactic(auto, using(crate::proofs::NoLonger::no_longer_name, crate::proofs::NoLonger::no_longer_int, crate::proofs::NoLonger::no_longer_hex))]
pub fn longest()
    ensures name { NoLongerName }
    ensures int { NoLongerInt }
    ensures hex { NoLongerHex }
{}

/// The value of a text literal is the concatenation of its pieces' values, up to its closing quote.
#[tactic(auto, using(crate::proofs::SaidPieces::says_its_pieces))]
pub fn pieces_of_a_text()
    ensures { SaysItsPieces }
{}

/// An escape has one of the forms of the table, and its value is the code point that it denotes (cel-spec, ESCAPE).
pub fn escapes()
    ensures { NamesItsCodePoint }
{}

/// The gap between tokens is the longest run of spaces, tabs, line feeds, form feeds, carriage returns and comments,
/// each from two slashes to the end of its line (cel-spec, WHITESPACE and COMMENT).
#[tactic(auto, using(crate::proofs::LongestGap::is_longest_gap))]
pub fn gaps()
    ensures { IsLongestGap }
{}

/// A minus and the int after it, with blanks and comments between them if any, are one token, the
/// number negated, unless the minus is after an identifier other than `in`, a literal or a closing
/// bracket; the negated number must fit 64 bits.
pub fn signed_ints()
    ensures prefix { HasPrefixPosition }
    ensures plain { HasPlainMinus }
    ensures negated { HasNegatedInt }
    ensures wide { HasWideInt }
{}

/// `front` finds exactly what is at the front of a text: its end, blanks and comments, the
/// longest token as it is written, an invalid text literal, an int that does not fit 64 bits, or
/// no token (cel-spec, IDENT, INT_LIT and STRING_LIT).
#[tactic(auto, using(crate::proofs::Standing::finds_what_stands, crate::proofs::OneStanding::nothing_else_stands))]
pub fn tokens_as_written()
    ensures found { FindsWhatStands }
    ensures only { NothingElseStands }
{}
