//! The statement at the front of code.
ghost use Rattle.std.specs.Prelude.{◌≡◌, ◌*◌, ◌%◌, ◌<◌, ◌≤◌, [], length, take, drop, IfSome, MatchOption};
ghost use Rattle.insn_codec.specs.Spelling.{more_bytes};
ghost use Rattle.insn_codec.specs.Statements.{after_statement, statement_of, statement_slots};

use byteorder::{BigEndian, ByteOrder, LittleEndian};
use insn_codec::{Statement, decode};

/// The statement at the front of the code and the code after it, unless the code is empty.
pub(crate) fn first_statement(code: &[u8]) -> Option<(Statement, &[u8])>
    requires whole { length code.now % 8 ≡ 0 }
    ensures found { MatchOption result (code.now ≡ []) (λ x. (x.0 ≡ statement_of code.now) × (x.1.now ≡ after_statement code.now)) }
    ensures goes_on { IfSome result (λ x. (length x.1.now < length code.now) × (length x.1.now % 8 ≡ 0)) }
{
    if code.is_empty() {
        return None;
    }
    let statement = statement_at(code);
    let (_, after) = code.split_at(8 * statement.slots() as usize);
    Some((statement, after))
}

/// The instruction that the slots at the front encode, or the first slot if they encode none.
pub(crate) fn statement_at(code: &[u8]) -> Statement
    requires whole { length code.now % 8 ≡ 0 }
    requires some { 8 ≤ length code.now }
    ensures is { result ≡ statement_of code.now }
    ensures inside { 8 * statement_slots result ≤ length code.now }
{
    let first = LittleEndian::read_u64(code);
    match decode(first, second_word(code)) {
        Some(insn) => Statement::Insn(insn),
        None => Statement::Slot(BigEndian::read_u64(code)),
    }
}

/// The word of the second slot, if the code has one.
fn second_word(code: &[u8]) -> Option<u64>
    requires whole { length code.now % 8 ≡ 0 }
    requires some { 8 ≤ length code.now }
    ensures { more_bytes result ≡ take 8 (drop 8 code.now) }
{
    let (_, after) = code.split_at(8);
    if after.is_empty() {
        None
    } else {
        Some(LittleEndian::read_u64(after))
    }
}
