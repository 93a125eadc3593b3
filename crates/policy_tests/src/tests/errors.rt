//! Codes and messages of errors.

use super::assert_none;
use CodeError::{NeedsTooManyWords, TooManyNodes, TooManyTextBytes, VariableTooDeep};
use PolicyError::{
    InvalidField, MessageWithLineBreak, NoValidations, NotAPolicy, NotJson, TooManyParts,
};
use codegen::CodeError;
use policy_glue::PolicyError;
use std::alloc::{AllocError, Global};
use std::fmt::Display;

/// Whether the error has this message.
fn has_words<E: Display>(alloc: Global, error: &E, words: &str) -> Result<bool, AllocError> {
    Ok(format!(in alloc; "{error}")?.as_str() == words)
}

/// The errors of code, with their codes and messages.
#[rattlefmt::skip]
const CODE_ERRORS: [(CodeError, &str, &str); 5] = [
    (NeedsTooManyWords, "G1", "the expression needs more than 60 words of the stack"),
    (VariableTooDeep, "G2", "the variables that a variable names are nested more than six deep"),
    (TooManyNodes, "G3", "the expressions have more than 512 nodes"),
    (TooManyTextBytes, "G4", "the expressions have more than 1048576 bytes of texts"),
    (CodeError::Memory, "memory", "out of memory"),
];

/// The errors of a policy's document, with their codes and messages.
#[rattlefmt::skip]
const POLICY_ERRORS: [(PolicyError, &str, &str); 7] = [
    (NotJson, "K1", "the policy is no JSON text"),
    (NotAPolicy, "K2", "the document is no ValidatingAdmissionPolicy"),
    (InvalidField, "K3", "the policy has not the form of a ValidatingAdmissionPolicy"),
    (NoValidations, "K4", "the policy has no validation"),
    (TooManyParts, "K5", "the policy has more than 64 conditions, variables or validations"),
    (MessageWithLineBreak, "K8", "a message of the policy has a line break"),
    (PolicyError::Memory, "memory", "out of memory"),
];

/// The code of the first of these errors that is wrong.
fn wrong_code_error(alloc: Global) -> Result<Option<&'static str>, AllocError> {
    for (error, code, words) in &CODE_ERRORS {
        if error.code() != *code || !has_words(alloc, error, words)? {
            return Ok(Some(*code));
        }
    }
    Ok(None)
}

fn wrong_policy_error(alloc: Global) -> Result<Option<&'static str>, AllocError> {
    for (error, code, words) in &POLICY_ERRORS {
        if error.code() != *code || !has_words(alloc, error, words)? {
            return Ok(Some(*code));
        }
    }
    Ok(None)
}

#[test]
fn errors_have_codes_and_words(rt: HostRuntime) {
    assert_none(&rt, wrong_code_error(rt.alloc()));
    assert_none(&rt, wrong_policy_error(rt.alloc()));
}
