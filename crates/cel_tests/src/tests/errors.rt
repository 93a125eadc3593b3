//! Codes and messages of errors.

use MacroError::{HasWithoutSelection, InvalidIterationName, WrongArgumentCount};
use ReadError::{
    IntOutOfRange, InvalidTextLiteral, TextTooLong, TooManyOpen, UnexpectedToken, UnknownCharacter,
};
use TypeError::{MisusedVariables, NoMatchingOverload, UnknownIdentifier};
use cel_macros::MacroError;
use cel_tokens::ReadError;
use cel_types::TypeError;
use std::alloc::Global;
use std::fmt::Display;

/// Whether the error has this message.
fn has_words<E: Display>(alloc: Global, error: &E, words: &str) -> bool {
    match format!(in alloc; "{error}") {
        Ok(text) => text.as_str() == words,
        Err(_) => false,
    }
}

/// The errors of a text, with their codes and messages.
#[rattlefmt::skip]
const READ_ERRORS: [(ReadError, &str, &str); 7] = [
    (UnknownCharacter(3), "P1", "no token begins at byte 3"),
    (InvalidTextLiteral(4), "P2", "the text literal at byte 4 is not ended, or has a wrong escape"),
    (IntOutOfRange(5), "P3", "the int at byte 5 is outside 64 bits"),
    (UnexpectedToken(6), "P4", "no expression has what stands at byte 6"),
    (TooManyOpen(7), "P5", "more than 100 brackets and conditions are open at byte 7"),
    (TextTooLong(8), "P6", "the text is too long at byte 8"),
    (ReadError::Memory, "memory", "out of memory"),
];

/// The errors of macros, with their codes and messages.
#[rattlefmt::skip]
const MACRO_ERRORS: [(MacroError, &str, &str); 4] = [
    (WrongArgumentCount, "M1", "a macro has another number of arguments"),
    (InvalidIterationName, "M2", "an iteration name is no plain identifier, a root's name or `variables`"),
    (HasWithoutSelection, "M3", "the argument of `has` selects no field"),
    (MacroError::Memory, "memory", "out of memory"),
];

/// The errors of types, with their codes and messages.
const TYPE_ERRORS: [(TypeError, &str, &str); 3] = [
    (UnknownIdentifier, "Y1", "a name is unknown"),
    (
        NoMatchingOverload,
        "Y2",
        "nothing takes operands of these types",
    ),
    (
        MisusedVariables,
        "Y3",
        "`variables` stands before no variable in scope",
    ),
];

#[test]
fn errors_of_texts_have_codes_and_words(rt: HostRuntime) {
    for (error, code, words) in &READ_ERRORS {
        let has_code = error.code() == *code;
        assert!(rt; has_code && has_words(rt.alloc(), error, words), "{code}");
    }
}

#[test]
fn errors_of_macros_have_codes_and_words(rt: HostRuntime) {
    for (error, code, words) in &MACRO_ERRORS {
        let has_code = error.code() == *code;
        assert!(rt; has_code && has_words(rt.alloc(), error, words), "{code}");
    }
}

#[test]
fn errors_of_types_have_codes_and_words(rt: HostRuntime) {
    for (error, code, words) in &TYPE_ERRORS {
        let has_code = error.code() == *code;
        assert!(rt; has_code && has_words(rt.alloc(), error, words), "{code}");
    }
}
