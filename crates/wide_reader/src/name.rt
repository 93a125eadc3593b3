//! Names.

ghost use Rattle.std.specs.Prelude.{◌≡◌, IfOk, string_bytes, true};
ghost use Rattle.std.specs.List.{list_all};
ghost use Rattle.std.specs.Str.{IsUtf8};
ghost use Rattle.cel_reader.specs.Words as words;
ghost use Rattle.wide_tokens.specs.Quoted as quoted;

use cel_tokens::is_name;
use std::alloc::{AllocError, Global};

/// Whether the name may follow a dot (cel-spec, SELECTOR).
pub fn is_selector(name: &[u8]) -> bool
    ensures { result ≡ words.is_selector name.now }
{
    is_name(name)
        && name != b"true".as_slice()
        && name != b"false".as_slice()
        && name != b"null".as_slice()
        && name != b"in".as_slice()
}

/// Whether the byte may be in a name in back quotes.
fn is_quoted_byte(byte: u8) -> bool
    ensures { result ≡ quoted.is_quoted_byte byte }
{
    byte.is_ascii_alphanumeric() || matches!(byte, b'_' | b'.' | b'-' | b'/' | b' ')
}

/// Whether each byte may be in a name in back quotes.
fn are_quoted_bytes(bytes: &[u8]) -> bool
    ensures { result ≡ list_all quoted.is_quoted_byte bytes.now }
{
    bytes.iter().all(|byte| is_quoted_byte(*byte))
}

/// Whether these bytes are a name in back quotes, without the quotes.
pub fn is_quoted_name(name: &[u8]) -> bool
    ensures { result ≡ quoted.is_quoted_name name.now }
{
    match name {
        [first, rest @ ..] => is_quoted_byte(*first) && are_quoted_bytes(rest),
        [] => false,
    }
}

/// A copy of the name as a `String`.
pub fn name_of(alloc: Global, name: &[u8]) -> Result<String, AllocError>
    requires { IsUtf8 name.now }
    ensures { IfOk result (λ s. string_bytes s ≡ name.now) }
{
    String::from_str(alloc, std::str::from_utf8(name).unwrap())
}
