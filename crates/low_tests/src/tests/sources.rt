//! Helper functions of the tests of the assembler.

mod atomics;
mod instructions;
mod programs;
mod refusals;

use assembler::assemble;
use insn_codec::{Insn, decode};
use std::alloc::Global;
use std::process::Abort;
use std::test::Fail;

/// The slots of the text's code, each as its bytes in storage order.
fn slots_of(alloc: Global, text: &str) -> Result<Vec<u64>, Fail> {
    let code = assemble(alloc, text)?;
    let mut slots = Vec::new(alloc);
    for slot in code.as_slice().chunks(8) {
        slots.push(word(slot).unwrap_or(0))?;
    }
    Ok(slots)
}

/// The only slot of the line's code.
fn word_of(alloc: Global, line: &str) -> Option<u64> {
    let code = assemble(alloc, line).ok()?;
    word(code.as_slice())
}

/// Eight bytes as one number, in storage order.
fn word(bytes: &[u8]) -> Option<u64> {
    match bytes {
        [a, b, c, d, e, f, g, h] => Some(u64::from_be_bytes([*a, *b, *c, *d, *e, *f, *g, *h])),
        _ => None,
    }
}

/// Asserts that each line has its slot.
fn assert_slots(rt: &impl Abort, alloc: Global, rows: &[(&str, u64)]) {
    for (line, slot) in rows {
        assert!(rt; word_of(alloc, line) == Some(*slot), "{line}");
    }
}

/// Asserts that each slot has its line.
fn assert_lines(rt: &impl Abort, alloc: Global, rows: &[(&str, u64)]) {
    for (line, slot) in rows {
        assert!(rt; is_line(alloc, *slot, line), "{line}");
    }
}

#[test]
fn each_line_has_its_slot(rt: HostRuntime) {
    assert_slots(&rt, rt.alloc(), &instructions::ROWS);
    assert_slots(&rt, rt.alloc(), &instructions::MORE_ROWS);
    assert_slots(&rt, rt.alloc(), &atomics::ROWS);
}

#[test]
fn each_slot_has_its_line(rt: HostRuntime) {
    assert_lines(&rt, rt.alloc(), &instructions::ROWS);
    assert_lines(&rt, rt.alloc(), &atomics::ROWS);
}

/// Whether the instruction has this line.
fn has_line(alloc: Global, insn: &Insn, line: &str) -> bool {
    match insn.to_string(alloc) {
        Ok(text) => text.as_str() == line,
        Err(_) => false,
    }
}

/// Whether the slot encodes an instruction with this line.
fn is_line(alloc: Global, slot: u64, line: &str) -> bool {
    match decode(slot.swap_bytes(), None) {
        Some(insn) => has_line(alloc, &insn, line),
        None => false,
    }
}

/// Whether the text is refused with this code at this line.
fn is_refused(alloc: Global, text: &str, reason: &str, line: usize) -> bool {
    match assemble(alloc, text) {
        Ok(_) => false,
        Err(error) => error.code() == reason && error.line() == Some(line),
    }
}

/// These lines, with this many lines `exit` between them.
fn around(alloc: Global, first: &str, exits: usize, last: &str) -> Result<String, Fail> {
    let mut text = String::from_str(alloc, first)?;
    for _ in 0..exits {
        text.push_str("exit\n")?;
    }
    text.push_str(last)?;
    Ok(text)
}
