//! Codes and messages of errors.

use super::assert_rows;
use debugger::SessionError;
use std::alloc::{AllocError, Global};
use std::fmt::Display;
use value_store::TableError;

/// Whether the error has this message.
fn has_words<E: Display>(alloc: Global, error: &E, words: &str) -> Result<bool, AllocError> {
    Ok(format!(in alloc; "{error}")?.as_str() == words)
}

/// The errors of a session, with their codes and messages.
const SESSION_ERRORS: [(SessionError, &str, &str); 3] = [
    (
        SessionError::ReadFailed,
        "S1",
        "the input could not be read",
    ),
    (
        SessionError::WriteFailed,
        "S2",
        "the output could not be written",
    ),
    (SessionError::Memory, "memory", "out of memory"),
];

/// The errors of roots, with their codes and messages.
#[rattlefmt::skip]
const TABLE_ERRORS: [(TableError, &str, &str); 4] = [
    (TableError::NotAnObject(3), "V1", "root 3 is neither an object nor null"),
    (TableError::NumberOutOfInt64(4), "V2", "root 4 holds a number that is no integer of 64 bits"),
    (TableError::RootsTooLarge, "V3", "the roots are too large"),
    (TableError::Memory, "memory", "out of memory"),
];

fn right_session_errors(alloc: Global) -> Result<usize, AllocError> {
    for (place, (error, code, words)) in SESSION_ERRORS.iter().enumerate() {
        if error.code() != *code || !has_words(alloc, error, words)? {
            return Ok(place);
        }
    }
    Ok(3)
}

fn right_table_errors(alloc: Global) -> Result<usize, AllocError> {
    for (place, (error, code, words)) in TABLE_ERRORS.iter().enumerate() {
        if error.code() != *code || !has_words(alloc, error, words)? {
            return Ok(place);
        }
    }
    Ok(4)
}

#[test]
fn errors_have_codes_and_words(rt: HostRuntime) {
    assert_rows(&rt, right_session_errors(rt.alloc()).unwrap_or(0), 3);
    assert_rows(&rt, right_table_errors(rt.alloc()).unwrap_or(0), 4);
}
