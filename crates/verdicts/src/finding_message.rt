//! The messages of findings.

ghost use Rattle.std.specs.Prelude.{◌≡◌, option_map, string_bytes, IfOk};
ghost use Rattle.std.specs.List.{list_any};
ghost use Rattle.std.specs.Str.{trim};
ghost use Rattle.verdicts.specs.Findings.{error_message, expression_message, false_message, failed_message, is_line_feed, is_short_line, line_or_empty, text_or};
ghost use Rattle.verdicts.specs.Policy.{validation_view};

use crate::validation::Validation;
use std::alloc::{AllocError, Global};

/// The most bytes that a message by a message expression may have.
const MESSAGE_LIMIT: usize = 5120;

/// The message of a validation that is false, and whose message expression gave this text, if any:
/// the first that is not empty of the text, the validation's message, and that its expression
/// failed, each without white space around it.
pub fn false_message(
    alloc: Global,
    validation: &Validation,
    text: Option<&str>,
) -> Result<String, AllocError>
    ensures { IfOk result (λ s. string_bytes s ≡ false_message (validation_view validation.now) (option_map (λ t. t.now) text.entry)) }
{
    let own = expression_message(text);
    if own.is_empty() {
        plain_message(alloc, validation)
    } else {
        String::from_str(alloc, own)
    }
}

/// The message that is set, and else that the expression failed.
fn plain_message(alloc: Global, validation: &Validation) -> Result<String, AllocError>
    ensures { IfOk result (λ s. string_bytes s ≡ text_or (trim (validation_view validation.now).message) (failed_message (validation_view validation.now))) }
{
    let message = validation.message.as_str().trim();
    if message.is_empty() {
        let expression = validation.expression.as_str().trim();
        format!(in alloc; "failed expression: {}", expression)
    } else {
        String::from_str(alloc, message)
    }
}

/// The message of a validation that is an error.
pub fn error_message(alloc: Global, validation: &Validation) -> Result<String, AllocError>
    ensures { IfOk result (λ s. string_bytes s ≡ error_message (validation_view validation.now)) }
{
    format!(in alloc; "expression '{}' resulted in error", validation.expression)
}

/// The message by a message expression that gave this text, empty where it gives none.
fn expression_message(text: Option<&str>) -> &str
    ensures { result.now ≡ expression_message (option_map (λ t. t.now) text.entry) }
{
    match text {
        Some(text) => line_or_empty(text.trim()),
        None => "",
    }
}

/// The text where it may be a message, and else the empty text.
fn line_or_empty(text: &str) -> &str
    ensures { result.now ≡ line_or_empty text.now }
{
    if is_short_line(text) { text } else { "" }
}

/// Whether the text is of at most 5,120 bytes and has no line feed.
fn is_short_line(text: &str) -> bool
    ensures { result ≡ is_short_line text.now }
{
    text.len() <= MESSAGE_LIMIT && !has_line_feed(text)
}

fn has_line_feed(text: &str) -> bool
    ensures { result ≡ list_any is_line_feed text.now }
{
    text.as_bytes().iter().any(|byte| *byte == b'\n')
}
