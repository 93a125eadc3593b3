//! Code as lines of text.
ghost use Rattle.std.specs.Prelude.{◌≡◌, ◌<◌, ◌/◌, length, MatchResult, None};
ghost use Rattle.disassembler.specs.Answers.{ListingFails, GivesLine, GivesListing, refusal_of};

use crate::dis_error::DisError;
use crate::front::{first_statement, statement_at};
use insn_codec::SLOT_LIMIT;
use std::alloc::Global;

/// The listing of the code: the line of each statement in order, each ended by a line feed.
/// `PartialSlot` is checked first, then `CodeTooLong`.
pub fn listing(alloc: Global, code: &[u8]) -> Result<String, DisError>
    ensures { GivesListing code.now result }
{
    match judge(code) {
        Ok(()) => {}
        Err(error) => return Err(error),
    }
    let mut text = String::new(alloc);
    let mut rest = code;
    'statements: while let Some((statement, after)) = first_statement(rest) {
        let line = statement.to_string(alloc)?;
        text.push_str(line.as_str())?;
        text.push('\n')?;
        rest = after;
    }
    Ok(text)
}

/// The line of the statement at this slot of the code, without a line feed, and the number of its
/// slots. The whole code is checked as for its listing.
pub fn line_at(alloc: Global, code: &[u8], slot: u64) -> Result<(String, u64), DisError>
    requires inside { refusal_of code.now ≡ None → slot < length code.now / 8 }
    ensures { GivesLine code.now slot result }
{
    match judge(code) {
        Ok(()) => {}
        Err(error) => return Err(error),
    }
    let (_, here) = code.split_at(8 * slot as usize);
    let statement = statement_at(here);
    let line = statement.to_string(alloc)?;
    Ok((line, statement.slots()))
}

/// Checks that the code has a listing.
fn judge(code: &[u8]) -> Result<(), DisError>
    ensures { MatchResult result (λ _. refusal_of code.now ≡ None) (ListingFails code.now) }
{
    if code.len() % 8 != 0 {
        return Err(DisError::PartialSlot);
    }
    if code.len() / 8 > SLOT_LIMIT as usize {
        return Err(DisError::CodeTooLong);
    }
    Ok(())
}
