//! Text literals.

ghost use Rattle.std.specs.Prelude.{◌≡◌, ◌++◌, OnOk, string_bytes};
ghost use Rattle.std.specs.List.{flat_map};
ghost use Rattle.std.specs.Str.{chars};
ghost use Rattle.cel_writer.specs.Printed.{letter_text, quoted_literal};

use std::alloc::AllocError;

/// Appends the text as a literal.
pub(crate) fn put_quoted(out: &mut String, text: &str) -> Result<(), AllocError>
    ensures { OnOk result (string_bytes out.new ≡ string_bytes out.old ++ quoted_literal text.now) }
{
    out.push_str("\"")?;
    put_letters(out, text)?;
    out.push_str("\"")
}

/// Appends the characters of the text as a literal has them.
fn put_letters(out: &mut String, text: &str) -> Result<(), AllocError>
    ensures { OnOk result (string_bytes out.new ≡ string_bytes out.old ++ flat_map letter_text (chars text.now)) }
{
    for c in text.chars() {
        put_letter(out, c)?;
    }
    Ok(())
}

/// Appends a character as a literal has it.
fn put_letter(out: &mut String, c: char) -> Result<(), AllocError>
    ensures { OnOk result (string_bytes out.new ≡ string_bytes out.old ++ letter_text c) }
{
    match c {
        '"' => out.push_str("\\\""),
        '\\' => out.push_str("\\\\"),
        '\n' => out.push_str("\\n"),
        '\r' => out.push_str("\\r"),
        _ => out.push(c),
    }
}
