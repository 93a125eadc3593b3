//! One denial.

ghost use Rattle.std.specs.Prelude.{◌≡◌, ◌++◌, codes, string_bytes, OnOk};
ghost use Rattle.std.specs.List.{list_all};
ghost use Rattle.verdicts.specs.Policy.{validation_view};
ghost use Rattle.verdicts.specs.Denials.{denial_view};
ghost use Rattle.verdicts.specs.Response.{denial_text, is_space, plain_message, serves};

use crate::policy::has_line_break;
use crate::validation::Validation;
use std::alloc::AllocError;

/// A validation that denies.
#[derive(Debug, Drop)]
pub struct Denial<'a> {
    pub validation: &'a Validation,
    /// The text of its message expression, if it gave one.
    pub message: Option<&'a str>,
}

impl<'a> Denial<'a> {
    /// Appends the message of the denial: the text of the message expression if it can be used,
    /// else the plain message.
    pub fn push_text(&self, text: &mut String) -> Result<(), AllocError>
        ensures { OnOk result (string_bytes text.new ≡ string_bytes text.old ++ denial_text (denial_view self.now)) }
    {
        match self.message {
            Some(own) if serves(own) => text.push_str(own),
            _ => push_plain_message(text, self.validation),
        }
    }
}

/// Appends the message that is set, else that the expression failed.
fn push_plain_message(text: &mut String, validation: &Validation) -> Result<(), AllocError>
    ensures { OnOk result (string_bytes text.new ≡ string_bytes text.old ++ plain_message (validation_view validation.now)) }
{
    if validation.message.is_empty() {
        push_failed(text, validation.expression.as_str())
    } else {
        text.push_str(validation.message.as_str())
    }
}

/// Appends that this expression failed.
fn push_failed(text: &mut String, expression: &str) -> Result<(), AllocError>
    ensures { OnOk result (string_bytes text.new ≡ string_bytes text.old ++ (codes "failed expression: " ++ expression.now)) }
{
    text.push_str("failed expression: ")?;
    text.push_str(expression)?;
    Ok(())
}

/// Whether the text can be used as a message: it is not empty, not only spaces, and has no line
/// break.
fn serves(text: &str) -> bool
    ensures { result ≡ serves text.now }
{
    !is_blank(text) && !has_line_break(text)
}

fn is_blank(text: &str) -> bool
    ensures { result ≡ list_all is_space text.now }
{
    text.as_bytes().iter().all(|byte| *byte == b' ')
}
