//! Laws of the definitions, each proved as the contract of an empty function.
ghost use Rattle.bpf_word.specs.Halves.{UpperHalfIsZero};
ghost use Rattle.bpf_word.specs.Operations.{ComparisonsTell, OperationsAre, ResultsAreWords};
ghost use Rattle.bpf_word.specs.Overflow.{SumsOverflow};
ghost use Rattle.bpf_word.specs.Rows.{ComparisonRowsHold, WordRowsHold};

/// Words worked out by hand.
#[tactic(auto, unfolding(crate::specs::Arithmetic::operated, crate::specs::Arithmetic::alu64_of, crate::specs::Arithmetic::alu32_of, crate::specs::Bytes::swap_of, crate::specs::Comparisons::holds_of, crate::specs::Signs::sext_of, crate::specs::Signs::signed_of, crate::specs::Signs::word_of))]
pub fn rows_stand()
    ensures { WordRowsHold }
{}

/// Comparisons of words worked out by hand.
#[tactic(auto, unfolding(crate::specs::Comparisons::holds_of, crate::specs::Signs::signed_of))]
pub fn comparisons_stand()
    ensures { ComparisonRowsHold }
{}

/// The result of 32-bit arithmetic has zeros in its upper 32 bits (RFC 9669, section 4.1).
#[tactic(auto, using(crate::proofs::Widths::operated_below), unfolding(crate::specs::Arithmetic::alu32_of))]
pub fn upper_half_is_zero()
    ensures { UpperHalfIsZero }
{}

/// A 64-bit move, sum and exclusive or.
#[tactic(auto, unfolding(crate::specs::Arithmetic::alu64_of, crate::specs::Arithmetic::operated))]
pub fn operations_are()
    ensures { OperationsAre }
{}

/// The comparisons by equality distinguish equal words from others.
#[tactic(auto, unfolding(crate::specs::Comparisons::holds_of))]
pub fn comparisons_tell()
    ensures { ComparisonsTell }
{}

/// The result of an operation on words is a 64-bit word.
#[tactic(auto, using(crate::proofs::Widths::operated_below, crate::proofs::Widths::word_below), unfolding(crate::specs::Arithmetic::alu64_of, crate::specs::Signs::sext_of, crate::specs::Bytes::swap_of))]
pub fn results_are_words()
    ensures { ResultsAreWords }
{}

/// The sum of two words is the sum of their signed numbers exactly if two signed
/// comparisons hold; otherwise that sum has no word.
#[tactic(auto, using(crate::proofs::Overflow::sums_overflow))]
pub fn sums_overflow()
    ensures { SumsOverflow }
{}
