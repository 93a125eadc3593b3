//! Texts in Go's quotes.
ghost use Rattle.std.specs.Prelude.{◌≡◌, ◌++◌, IfOk, OnOk, string_bytes};
ghost use Rattle.std.specs.List.{flat_map};
ghost use Rattle.std.specs.Str.{chars};
ghost use Rattle.cluster_plan.specs.Quotes.{go_escape, go_quoted};

use std::alloc::{AllocError, Global};

/// The text in Go's quotes.
pub fn go_quoted(alloc: Global, text: &str) -> Result<String, AllocError>
    ensures { IfOk result (λ t. string_bytes t ≡ go_quoted text.now) }
{
    let escaped = go_escaped(alloc, text)?;
    ["\"", escaped.as_str(), "\""].concat(alloc)
}

fn go_escaped(alloc: Global, text: &str) -> Result<String, AllocError>
    ensures { IfOk result (λ t. string_bytes t ≡ flat_map go_escape (chars text.now)) }
{
    let mut escaped = String::new(alloc);
    for c in text.chars() {
        push_escaped(&mut escaped, c)?;
    }
    Ok(escaped)
}

fn push_escaped(escaped: &mut String, c: char) -> Result<(), AllocError>
    ensures { OnOk result (string_bytes escaped.new ≡ string_bytes escaped.old ++ go_escape c) }
{
    match c {
        '"' => escaped.push_str("\\\""),
        '\\' => escaped.push_str("\\\\"),
        _ => escaped.push(c),
    }
}
