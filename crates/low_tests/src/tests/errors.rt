//! Codes and messages of errors.

use AsmError::{
    DuplicateLabel, JumpTooFar, NumberOutOfRange, TooManySlots, UnknownLabel, UnknownLine,
};
use DisError::{CodeTooLong, PartialSlot};
use LoadError::{BadLength, BadSlotCount, ConstantsTooLong, TooShort, UnknownMagic};
use assembler::AsmError;
use disassembler::DisError;
use loader::LoadError;
use std::alloc::Global;
use std::fmt::Display;

/// Whether the error has this message.
fn has_words<E: Display>(alloc: Global, error: &E, words: &str) -> bool {
    match format!(in alloc; "{error}") {
        Ok(text) => text.as_str() == words,
        Err(_) => false,
    }
}

/// The errors of an image file, with their codes and messages.
const LOAD_ERRORS: [(LoadError, &str, &str); 6] = [
    (
        TooShort,
        "L1",
        "the file is shorter than the 16 bytes of its head",
    ),
    (
        UnknownMagic,
        "L2",
        "the file begins with neither CELBPF01 nor CELBPF02",
    ),
    (
        BadSlotCount,
        "L3",
        "the code has no slots, or more than 65536",
    ),
    (
        ConstantsTooLong,
        "L4",
        "the constants are longer than 1048576 bytes",
    ),
    (
        BadLength,
        "L5",
        "the length is not that of the slots and constants",
    ),
    (LoadError::Memory, "memory", "out of memory"),
];

/// The errors of a source, with their codes and messages.
#[rattlefmt::skip]
const ASM_ERRORS: [(AsmError, &str, &str); 7] = [
    (UnknownLine(3), "A1", "line 3 is no instruction, slot or label"),
    (NumberOutOfRange(4), "A2", "line 4 has a number that is out of range"),
    (UnknownLabel(5), "A3", "line 5 jumps to a label that no line names"),
    (DuplicateLabel(6), "A4", "line 6 names a label a second time"),
    (JumpTooFar(7), "A5", "line 7 jumps to a label that is too far away"),
    (TooManySlots(8), "A6", "line 8 is past the 65536 slots that a program can have"),
    (AsmError::Memory, "memory", "out of memory"),
];

/// The errors of a listing, with their codes and messages.
const DIS_ERRORS: [(DisError, &str, &str); 3] = [
    (PartialSlot, "D1", "the code is not a whole number of slots"),
    (CodeTooLong, "D2", "the code has more than 65536 slots"),
    (DisError::Memory, "memory", "out of memory"),
];

#[test]
fn errors_of_images_have_codes_and_words(rt: HostRuntime) {
    for (error, code, words) in &LOAD_ERRORS {
        let has_code = error.code() == *code;
        assert!(rt; has_code && has_words(rt.alloc(), error, words), "{code}");
    }
}

#[test]
fn errors_of_sources_have_codes_and_words(rt: HostRuntime) {
    for (error, code, words) in &ASM_ERRORS {
        let has_code = error.code() == *code;
        assert!(rt; has_code && has_words(rt.alloc(), error, words), "{code}");
    }
}

#[test]
fn errors_of_listings_have_codes_and_words(rt: HostRuntime) {
    for (error, code, words) in &DIS_ERRORS {
        let has_code = error.code() == *code;
        assert!(rt; has_code && has_words(rt.alloc(), error, words), "{code}");
    }
}
