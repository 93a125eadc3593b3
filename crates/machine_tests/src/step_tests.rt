//! Programs whose results were computed by hand. A slot is written as its eight bytes in storage order.
use bpf_machine::{Machine, Status};
use guest_memory::Guest;
use insn_codec::Register;
use loader::Image;
use std::alloc::{AllocError, Global};
use value_store::{PlainTable, TableError};

mod accesses;
mod arithmetic;
mod atomics;
mod copies;
mod helper_calls;
mod jumps;
mod limits;
mod runs;

const EXIT: u64 = 0x9500_0000_0000_0000;

/// The machine over the plain store and plain memory.
type Plain = Machine<PlainTable, Guest>;

/// The two slots of a wide load of a word into the register with this number.
fn wide(register: u8, word: u64) -> [u64; 2] {
    let [a, b, c, d, e, f, g, h] = word.to_le_bytes();
    let low = u32::from_be_bytes([a, b, c, d]);
    let high = u32::from_be_bytes([e, f, g, h]);
    [
        u64::from_be_bytes([0x18, register, 0, 0, 0, 0, 0, 0]) | u64::from(low),
        u64::from(high),
    ]
}

/// The code with these slots.
fn code(alloc: Global, slots: &[u64]) -> Result<Vec<u8>, AllocError> {
    let mut code = Vec::new(alloc);
    for slot in slots {
        code.extend_from_slice(&slot.to_be_bytes())?;
    }
    Ok(code)
}

/// The table of five null roots.
fn nulls(alloc: Global) -> Result<PlainTable, TableError> {
    PlainTable::of_roots(
        alloc,
        &[
            Default::default(),
            Default::default(),
            Default::default(),
            Default::default(),
            Default::default(),
        ],
    )
}

/// The machine at the start of this code with these constants.
fn machine(alloc: Global, slots: &[u64], constants: &[u8]) -> Option<Plain> {
    let code = code(alloc, slots).ok()?;
    let constants = Vec::from_slice(alloc, constants).ok()?;
    let image = Image::new(code, constants).ok()?;
    let values = nulls(alloc).ok()?;
    Machine::start(alloc, image, values).ok()
}

/// The result of a run of at most `limit` steps.
fn run_answer(mut machine: Plain, limit: u64) -> Option<(u64, Status)> {
    machine.run(limit).ok()
}

/// The machine after a run of at most `limit` steps.
fn run_machine(mut machine: Plain, limit: u64) -> Option<Plain> {
    machine.run(limit).ok()?;
    Some(machine)
}

/// The result of a run, then the status, `pc`, R10 and the number of open records.
type End = ((u64, Status), (Status, i64, u64, usize));

/// The end of a run of at most `limit` steps.
fn end_of(alloc: Global, slots: &[u64], limit: u64) -> Option<End> {
    let mut machine = machine(alloc, slots, &[])?;
    let answer = machine.run(limit).ok()?;
    let r10 = machine.register(Register::R10);
    Some((
        answer,
        (machine.status(), machine.pc(), r10, machine.records().len()),
    ))
}

/// The result of a run of at most nine steps from the start.
fn answer(alloc: Global, slots: &[u64], constants: &[u8]) -> Option<(u64, Status)> {
    run_answer(machine(alloc, slots, constants)?, 9)
}

/// Whether a run has this result.
fn answers(alloc: Global, slots: &[u64], expected: (u64, Status)) -> bool {
    answer(alloc, slots, &[]) == Some(expected)
}
