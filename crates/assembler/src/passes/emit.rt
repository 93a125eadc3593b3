//! The second pass: the bytes of the lines.

ghost use Rattle.std.specs.Prelude.{◌≡◌, ◌≢◌, ◌≤◌, [], ◌++◌, ℕ, List, IfSome, OnErr, OnOk, map};
ghost use Rattle.std.specs.BTreeMap.{get_by_text};
ghost use Rattle.std.specs.Int.{to_be_bytes, to_le_bytes, w64};
ghost use Rattle.assembler.specs.Answers.{SecondPass};
ghost use Rattle.assembler.specs.Items.{item_of, slots_of};
ghost use Rattle.assembler.specs.SecondPass.{bytes_of, code_bytes, line_statement};
ghost use Rattle.insn_codec.specs.Limits.{slot_limit};

use crate::asm_error::AsmError;
use crate::lines::line::Line;
use crate::passes::labels::{Labels, slot_of};
use crate::passes::offset::jump_to;
use crate::passes::scan::slots;
use byteorder::{BigEndian, ByteOrder, LittleEndian};
use insn_codec::{Statement, encode};
use std::alloc::{AllocError, Global};

/// The statement of the line with this number, which begins at this slot; none for a label.
///
/// # Errors
///
/// `UnknownLabel` if a label has no slot, `JumpTooFar` if it is too far away.
fn resolve(
    line: &Line<'_>,
    number: usize,
    slot: u32,
    labels: &Labels,
) -> Result<Option<Statement>, AsmError>
    requires slot { slot ≤ slot_limit }
    requires labels { (q : List ℕ) → IfSome (get_by_text labels.now q) (λ t. t ≤ slot_limit) }
    ensures { result ≡ line_statement (λ q. get_by_text labels.now q) number slot (item_of line.now) }
{
    match *line {
        Line::Statement(statement) => Ok(Some(statement)),
        Line::Label(_) => Ok(None),
        Line::Jump(jump, name) => jump_to(jump, slot, number, slot_of(labels, name)),
    }
}

/// The bytes of a word, the lowest first.
fn low_first(word: u64) -> [u8; 8]
    ensures { result ≡ to_le_bytes w64 word }
{
    let mut bytes = [0; 8];
    LittleEndian::write_u64(&mut bytes, word);
    bytes
}

/// The bytes of a word, the highest first.
fn high_first(word: u64) -> [u8; 8]
    ensures { result ≡ to_be_bytes w64 word }
{
    let mut bytes = [0; 8];
    BigEndian::write_u64(&mut bytes, word);
    bytes
}

/// Appends the bytes of the statement.
fn push_statement(out: &mut Vec<u8>, statement: Option<Statement>) -> Result<(), AllocError>
    ensures { OnOk result (out.new.items ≡ out.old.items ++ bytes_of statement) }
{
    match statement {
        None => Ok(()),
        Some(Statement::Slot(word)) => out.extend_from_slice(&high_first(word)),
        Some(Statement::Insn(insn)) => {
            let (first, second) = encode(&insn);
            out.extend_from_slice(&low_first(first))?;
            match second {
                None => Ok(()),
                Some(second) => out.extend_from_slice(&low_first(second)),
            }
        }
    }
}

/// The bytes of the lines.
///
/// # Errors
///
/// The error of the first invalid line: `UnknownLabel` if its label has no slot, `JumpTooFar` if it is too far away.
pub(crate) fn emit(alloc: Global, lines: &[Line<'_>], labels: &Labels) -> Result<Vec<u8>, AsmError>
    requires room { slots_of (map item_of lines.now) ≤ slot_limit }
    requires labels { (q : List ℕ) → IfSome (get_by_text labels.now q) (λ t. t ≤ slot_limit) }
    ensures emits { SecondPass (code_bytes (λ q. get_by_text labels.now q) 1 0 (map item_of lines.now)) result }
    ensures some { OnErr result (lines.now ≢ []) }
{
    let mut out = Vec::new(alloc);
    let mut number = 1;
    let mut slot = 0;
    for line in lines {
        let statement = match resolve(line, number, slot, labels) {
            Ok(statement) => statement,
            Err(error) => return Err(error),
        };
        push_statement(&mut out, statement)?;
        number += 1;
        slot += slots(line);
    }
    Ok(out)
}
