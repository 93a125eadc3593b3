//! Codes and messages of errors.

use RunError::{
    NamespaceOrParamsRefused, OutOfReads, OutOfSteps, OverLimit, PolicyRefused, ReviewRefused,
};
use host::{FileFailure, FileReadError};
use review_runner::{FileError, OrderError, PolicyRefusal, RunError};
use std::alloc::{AllocError, Global};
use std::fmt::Display;
use std::test::Fail;

/// Whether the error has this message.
fn has_words<E: Display>(alloc: Global, error: &E, words: &str) -> Result<bool, AllocError> {
    Ok(format!(in alloc; "{error}")?.as_str() == words)
}

/// The errors of the command line, with their codes and messages.
#[rattlefmt::skip]
const ORDER_ERRORS: [(OrderError, &str, &str); 2] = [
    (OrderError::InvalidArguments, "U1", "the command line is not one that celbpf takes"),
    (OrderError::Memory, "memory", "out of memory"),
];

/// The errors of a review, with their codes and messages.
const RUN_ERRORS: [(RunError, &str, &str); 7] = [
    (
        PolicyRefused(PolicyRefusal::Memory),
        "N1",
        "the policy is refused",
    ),
    (ReviewRefused, "N2", "the review is refused"),
    (
        NamespaceOrParamsRefused,
        "N3",
        "the namespace or the params are refused",
    ),
    (OutOfSteps, "N4", "the policy's program has not ended"),
    (OverLimit, "N5", "the policy's program was stopped"),
    (OutOfReads, "N7", "the policy's program has read too much"),
    (RunError::Memory, "memory", "out of memory"),
];

/// The errors of a file, with their codes and messages.
const FILE_ERRORS: [(FileError, &str, &str); 2] = [
    (
        FileError::Failed,
        "file",
        "the file cannot be read or written",
    ),
    (FileError::Memory, "memory", "out of memory"),
];

/// The errors of a file that is read with the reason, with their messages.
const FILE_READ_ERRORS: [(FileReadError, &str); 5] = [
    (FileReadError::Failed(FileFailure::NotFound), "not found"),
    (
        FileReadError::Failed(FileFailure::PermissionDenied),
        "permission denied",
    ),
    (
        FileReadError::Failed(FileFailure::IsADirectory),
        "is a directory",
    ),
    (FileReadError::Failed(FileFailure::Other), "cannot be read"),
    (FileReadError::Memory, "out of memory"),
];

#[test]
fn errors_have_codes_and_words(rt: HostRuntime) -> Result<(), Fail> {
    for (error, code, words) in &ORDER_ERRORS {
        assert_eq!(rt; error.code(), *code);
        assert!(rt; has_words(rt.alloc(), error, words)?, "{words}");
    }
    for (error, code, words) in &RUN_ERRORS {
        assert_eq!(rt; error.code(), *code);
        assert!(rt; has_words(rt.alloc(), error, words)?, "{words}");
    }
    for (error, code, words) in &FILE_ERRORS {
        assert_eq!(rt; error.code(), *code);
        assert!(rt; has_words(rt.alloc(), error, words)?, "{words}");
    }
    for (error, words) in &FILE_READ_ERRORS {
        assert!(rt; has_words(rt.alloc(), error, words)?, "{words}");
    }
    Ok(())
}
