//! Images of random code, drawn from a seed.

use assembler::assemble;
use bpf_machine::{Machine, Status};
use disassembler::listing;
use guest_memory::Guest;
use loader::Image;
use serde_json::Value;
use std::alloc::{AllocError, Global};
use std::test::Fail;
use value_table::Table;

const IMAGES: u64 = 10_000;

/// The number of steps after which a run that has not ended is abandoned.
const STEPS: u64 = 1_000;

/// Opcodes of every family: arithmetic of both widths, byte swaps, jumps of both widths, calls, the
/// exit, loads, stores, atomic instructions and the wide load.
const OPCODES: [u8; 48] = [
    0x07, 0x0f, 0x1f, 0x27, 0x37, 0x3f, 0x47, 0x57, 0x67, 0x77, 0x87, 0x97, 0xa7, 0xaf, 0xb7, 0xbf,
    0xc7, 0xd7, 0x04, 0x2c, 0x3c, 0x9c, 0xb4, 0xbc, 0xd4, 0xdc, 0x05, 0x15, 0x1d, 0x25, 0x2d, 0x55,
    0x6d, 0xa5, 0x06, 0x26, 0x85, 0x95, 0x61, 0x71, 0x79, 0x91, 0x62, 0x7b, 0x7a, 0xc3, 0xdb, 0x18,
];

/// The next word of the sequence: three shifts, each combined by an exclusive or (xorshift).
fn next(word: u64) -> u64 {
    let first = word ^ (word << 13);
    let second = first ^ (first >> 7);
    second ^ (second << 17)
}

/// One of the opcodes, or in one of eight cases any byte.
fn opcode(choice: u8, byte: u8) -> u8 {
    if choice % 8 == 0 {
        return byte;
    }
    match OPCODES.get(usize::from(byte % 48)) {
        Some(opcode) => *opcode,
        None => byte,
    }
}

/// A slot with valid registers, an offset from -4 to 4 and a number from -16 to 47.
fn slot(word: u64) -> [u8; 8] {
    let [choice, byte, dst, src, near, number, _, _] = word.to_le_bytes();
    let registers = (dst % 11) | (src % 11).wrapping_mul(16);
    let offset = u16::from(near % 9).wrapping_sub(4).to_le_bytes();
    let number = u32::from(number % 64).wrapping_sub(16).to_le_bytes();
    let [first, second, third, fourth] = number;
    [
        opcode(choice, byte),
        registers,
        offset[0],
        offset[1],
        first,
        second,
        third,
        fourth,
    ]
}

/// Code of at most 16 slots, and the next word of the sequence after it.
fn drawn(alloc: Global, word: u64) -> Result<(Vec<u8>, u64), AllocError> {
    let mut code = Vec::new(alloc);
    let mut word = next(word);
    for _ in 0..1 + word % 16 {
        word = next(word);
        code.extend_from_slice(&slot(word))?;
    }
    Ok((code, word))
}

/// Whether the code's listing assembles to the code.
fn is_listed(alloc: Global, code: &[u8]) -> Result<bool, Fail> {
    let text = listing(alloc, code)?;
    let again = assemble(alloc, text.as_str())?;
    Ok(again.as_slice() == code)
}

/// The machine at the start of this code, on five null roots.
fn started(alloc: Global, code: Vec<u8>) -> Result<Machine<Table, Guest>, Fail> {
    let image = Image::new(code, Vec::new(alloc))?;
    let roots: [Value; 5] = Default::default();
    Ok(Machine::start(alloc, image, Table::of_roots(alloc, &roots)?)?)
}

/// Whether a run of this code reaches a final status within its steps, or continues after them.
fn has_status(alloc: Global, code: Vec<u8>) -> Result<bool, Fail> {
    let mut machine = started(alloc, code)?;
    let (steps, status) = machine.run(STEPS)?;
    let has_ended = status != Status::Running;
    Ok(machine.status() == status && (has_ended || steps == STEPS))
}

/// The number of these images that are correct: their listings assemble to their code, and their runs have a status.
fn standing(alloc: Global, images: u64) -> Result<u64, Fail> {
    let (mut standing, mut word) = (0u64, 26u64);
    for _ in 0..images {
        let (code, behind) = drawn(alloc, word)?;
        word = behind;
        if is_listed(alloc, code.as_slice())? && has_status(alloc, code)? {
            standing = standing.wrapping_add(1);
        }
    }
    Ok(standing)
}

#[test]
fn images_run_and_are_listed(rt: HostRuntime) -> Result<(), Fail> {
    assert_eq!(rt; standing(rt.alloc(), IMAGES)?, IMAGES);
    Ok(())
}
