//! How a text literal begins.

ghost use Rattle.std.specs.Prelude.{◌≡◌, ◌≤◌, true, length};
ghost use Rattle.cel_tokens.specs.Texts.{is_quote, is_raw_prefix};
ghost use Rattle.wide_tokens.specs.Texts as texts;

/// What a text literal begins with.
#[derive(Clone, Copy, Debug, PartialEq, Eq)]
pub struct Opening {
    /// `b` or `B`: the literal is bytes.
    pub bytes: bool,
    /// `r` or `R`: a backslash stands for itself.
    pub raw: bool,
    /// Three quotes, and not one.
    pub long: bool,
    pub quote: u8,
}

/// Whether the byte is a quote.
pub fn is_quote(byte: u8) -> bool
    ensures { result ≡ is_quote byte }
{
    byte == b'"' || byte == b'\''
}

/// Whether the byte is the prefix of a raw text literal.
fn is_raw_prefix(byte: u8) -> bool
    ensures { result ≡ is_raw_prefix byte }
{
    byte == b'r' || byte == b'R'
}

/// Whether the byte is the prefix of bytes.
fn is_bytes_prefix(byte: u8) -> bool
    ensures { result ≡ texts.is_bytes_prefix byte }
{
    byte == b'b' || byte == b'B'
}

/// Whether two more of this quote are at the front.
pub fn two_more(quote: u8, bytes: &[u8]) -> bool
    ensures value { result ≡ texts.two_more quote bytes.now }
    ensures within { result ≡ true → 2 ≤ length bytes.now }
{
    match bytes {
        [first, second, ..] => *first == quote && *second == quote,
        _ => false,
    }
}

/// The opening whose quote is at the front, after these prefixes.
fn quote_at(bytes: bool, raw: bool, rest: &[u8]) -> Option<Opening>
    ensures { result ≡ texts.quote_at bytes raw rest.now }
{
    match rest {
        [quote, more @ ..] if is_quote(*quote) => {
            let long = two_more(*quote, more);
            Some(Opening {
                bytes,
                raw,
                long,
                quote: *quote,
            })
        }
        _ => None,
    }
}

/// The opening at the front, after `b` or `B` if `bytes`.
fn raw_at(bytes: bool, rest: &[u8]) -> Option<Opening>
    ensures { result ≡ texts.raw_at bytes rest.now }
{
    match rest {
        [first, more @ ..] if is_raw_prefix(*first) => quote_at(bytes, true, more),
        _ => quote_at(bytes, false, rest),
    }
}

/// The opening of the text literal at the front.
pub fn opening_at(bytes: &[u8]) -> Option<Opening>
    ensures { result ≡ texts.opening bytes.now }
{
    match bytes {
        [first, more @ ..] if is_bytes_prefix(*first) => raw_at(true, more),
        _ => raw_at(false, bytes),
    }
}

impl Opening {
    /// The number of bytes of the opening.
    pub fn len(self) -> usize
        ensures { result ≡ texts.opening_len self }
    {
        let quotes = if self.long { 3 } else { 1 };
        self.bytes as usize + self.raw as usize + quotes
    }
}
