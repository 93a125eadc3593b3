//! Members of JSON objects.
ghost use Rattle.std.specs.Prelude.{OnOk};
ghost use Rattle.policy_glue.specs.ResponseTokens.{text_tokens, AddsTokens};

use json::Writer;
use std::alloc::AllocError;

/// Writes a member whose value is a text.
pub fn write_text(writer: &mut Writer, name: &str, text: &str) -> Result<(), AllocError>
    ensures { OnOk result (AddsTokens writer.old writer.new (text_tokens name.now text.now)) }
{
    writer.key(name)?;
    writer.string(text)
}
