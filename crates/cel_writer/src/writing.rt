//! Texts of expressions.

ghost use Rattle.std.specs.Prelude.{◌≡◌, string_bytes};
ghost use Rattle.cel_reader.specs.Tree.{view};
ghost use Rattle.cel_writer.specs.Writing.{ReturnsChecked, unread_error, WritesBack};

use crate::printing::put;
use crate::same::is_same;
use crate::write_error::WriteError;
use cel_reader::{Expr, ReadError, read};
use std::alloc::Global;

/// The text of an expression, which is read as the expression.
///
/// # Errors
///
/// `Unreadable` if the text is not read as the expression. `Memory` if an allocation fails.
pub fn write(alloc: Global, e: &Expr) -> Result<String, WriteError>
    ensures { WritesBack (view e.now) result }
{
    let mut text = String::new(alloc);
    put(&mut text, e, None)?;
    match read(alloc, text.as_str()) {
        Ok(back) => checked(text, &back, e),
        Err(error) => Err(unread(error)),
    }
}

/// The text, if the expression that was read in it is the expression that was written.
fn checked(text: String, back: &Expr, e: &Expr) -> Result<String, WriteError>
    ensures { ReturnsChecked (string_bytes text) (view back.now) (view e.now) result }
{
    if is_same(back, e) {
        Ok(text)
    } else {
        Err(WriteError::Unreadable)
    }
}

/// Why a text that is not read is not returned.
fn unread(error: ReadError) -> WriteError
    ensures { result ≡ unread_error error }
{
    match error {
        ReadError::Memory => WriteError::Memory,
        _ => WriteError::Unreadable,
    }
}
