//! Laws of instructions and statements, each proved as the contract of an empty function.
ghost use Rattle.insn_codec.specs.Laws.{NoLineFeed, OneSpelling, SlotsAreFilled, StatementIsSpelled};
ghost use Rattle.insn_codec.specs.LineRows.{ArithmeticLinesHold, JumpLinesHold, MemoryLinesHold, StatementLinesHold};
ghost use Rattle.insn_codec.specs.OpcodeRows.{ArithmeticCodesHold, JumpCodesHold, MemoryCodesHold};
ghost use Rattle.insn_codec.specs.RefusedRows.{FieldsAreChecked, NoSuchAccess, NoSuchArithmetic, NoSuchJump};
ghost use Rattle.insn_codec.specs.Rows.{SpellingRowsHold};
ghost use Rattle.insn_codec.specs.Spelled.{SpelledIsSpelling};

/// No bytes begin with the encodings of two instructions, so that each instruction has one
/// encoding, and none is a prefix of another.
pub fn one_reading()
    ensures { OneSpelling }
{}

/// Decoding by the fields agrees with the encodings, for any bytes.
pub fn spelled_is_spelling()
    ensures { SpelledIsSpelling }
{}

/// Instructions, and slots that encode none, byte by byte.
#[tactic(auto, unfolding(crate::specs::Spelled::spelled, crate::specs::Candidate::candidate_at, crate::specs::Candidate::arithmetic_at, crate::specs::Candidate::jump_at, crate::specs::Candidate::branch_at, crate::specs::Candidate::memory_at, crate::specs::Candidate::atomic_at, crate::specs::Candidate::wide_at))]
pub fn rows_stand()
    ensures { SpellingRowsHold }
{}

/// The opcode of each operation, comparison, size and mode, assembled by hand.
#[tactic(auto, unfolding(crate::specs::Spelled::spelled, crate::specs::Candidate::candidate_at, crate::specs::Candidate::arithmetic_at, crate::specs::Candidate::jump_at, crate::specs::Candidate::branch_at, crate::specs::Candidate::memory_at, crate::specs::Candidate::atomic_at, crate::specs::Candidate::wide_at))]
pub fn opcodes_stand()
    ensures arithmetic { ArithmeticCodesHold }
    ensures jumps { JumpCodesHold }
    ensures memory { MemoryCodesHold }
{}

/// Slots that encode no instruction; each violates exactly one rule of the standard.
#[tactic(auto, unfolding(crate::specs::Spelled::spelled, crate::specs::Candidate::candidate_at, crate::specs::Candidate::arithmetic_at, crate::specs::Candidate::jump_at, crate::specs::Candidate::branch_at, crate::specs::Candidate::memory_at, crate::specs::Candidate::atomic_at, crate::specs::Candidate::wide_at))]
pub fn refusals_stand()
    ensures fields { FieldsAreChecked }
    ensures arithmetic { NoSuchArithmetic }
    ensures jumps { NoSuchJump }
    ensures access { NoSuchAccess }
{}

/// The line of each instruction, and of a slot.
#[tactic(auto, unfolding(crate::specs::Lines::decimal, crate::specs::Lines::hex_digits))]
pub fn lines_stand()
    ensures arithmetic { ArithmeticLinesHold }
    ensures jumps { JumpLinesHold }
    ensures memory { MemoryLinesHold }
    ensures statements { StatementLinesHold }
{}

/// The bytes of an instruction, and of a statement, are eight for each of its slots, of which it has at least one.
pub fn slots_are_filled()
    ensures { SlotsAreFilled }
{}

/// Code of whole slots begins with the bytes of its first statement: the instruction
/// that its slots encode, or its first slot.
#[tactic(auto, using(crate::proofs::Statements::is_spelled))]
pub fn statement_is_spelled()
    ensures { StatementIsSpelled }
{}

/// No byte of a statement's line is a line feed.
#[tactic(auto, using(crate::proofs::Plain::statement_on_one_line))]
pub fn no_line_feed()
    ensures { NoLineFeed }
{}
