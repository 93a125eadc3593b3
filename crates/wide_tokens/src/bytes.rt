//! Classes of bytes, and the blanks and comments between tokens.

ghost use Rattle.std.specs.Prelude.{◌≡◌, ◌≤◌, ◌<◌, length, drop, get_or, true, false};
ghost use Rattle.std.specs.Char.{digit_value};
ghost use Rattle.cel_tokens.specs.Bytes as bytes_of;
ghost use Rattle.cel_tokens.specs.Bytes.{run};
ghost use Rattle.wide_tokens.specs.Gap as gap;
ghost use Rattle.wide_tokens.specs.Quoted as quoted;

/// Whether the byte may begin a name.
pub fn is_letter(byte: u8) -> bool
    ensures { result ≡ bytes_of.is_letter byte }
{
    byte.is_ascii_alphabetic() || byte == b'_'
}

/// Whether the byte may continue a name.
fn is_name_byte(byte: u8) -> bool
    ensures { result ≡ bytes_of.is_name_byte byte }
{
    is_letter(byte) || byte.is_ascii_digit()
}

/// Whether the byte may be in a name in back quotes.
fn is_quoted_byte(byte: u8) -> bool
    ensures { result ≡ quoted.is_quoted_byte byte }
{
    is_name_byte(byte) || matches!(byte, b'.' | b'-' | b'/' | b' ')
}

/// The value of a digit or a letter, and 36 for any other byte.
pub fn digit_value(byte: u8) -> u64
    ensures { result ≡ digit_value byte }
{
    match byte {
        b'0'..=b'9' => (byte - b'0') as u64,
        b'A'..=b'Z' => (byte - b'A') as u64 + 10,
        b'a'..=b'z' => (byte - b'a') as u64 + 10,
        _ => 36,
    }
}

/// Whether the byte is a digit in this base.
pub fn is_digit_of(base: u64, byte: u8) -> bool
    ensures { result ≡ bytes_of.is_digit_of base byte }
{
    digit_value(byte) < base
}

/// Whether the byte ends a line.
pub fn is_line_end(byte: u8) -> bool
    ensures { result ≡ bytes_of.is_line_end byte }
{
    byte == b'\n' || byte == b'\r'
}

/// Whether the byte is a blank.
fn is_blank(byte: u8) -> bool
    ensures { result ≡ bytes_of.is_blank byte }
{
    byte == b' ' || byte == b'\t' || byte == b'\x0c' || is_line_end(byte)
}

/// The bytes from this position on.
#[tactic(auto, using(cel_tokens::proofs::Runs::tail_is))]
pub fn tail(bytes: &[u8], at: usize) -> &[u8]
    requires { at ≤ length bytes.now }
    ensures { result.now ≡ drop at bytes.now }
{
    &bytes[at..]
}

/// The number of bytes at the front that continue a name.
#[tactic(auto, using(cel_tokens::proofs::Runs::run_empty, cel_tokens::proofs::Runs::run_more, cel_tokens::proofs::Runs::run_stops, cel_tokens::proofs::Runs::run_within, cel_tokens::proofs::Runs::run_first))]
pub fn name_len(bytes: &[u8]) -> usize
    ensures length { result ≡ run bytes_of.is_name_byte bytes.now }
    ensures within { result ≤ length bytes.now }
    ensures some { 0 < length bytes.now → bytes_of.is_name_byte (get_or bytes.now 0 0) ≡ true → 1 ≤ result }
{
    let mut n = 0;
    while n < bytes.len() && is_name_byte(bytes[n]) {
        n += 1;
    }
    n
}

/// The number of bytes at the front that may be in a name in back quotes.
#[tactic(auto, using(cel_tokens::proofs::Runs::run_empty, cel_tokens::proofs::Runs::run_more, cel_tokens::proofs::Runs::run_stops, cel_tokens::proofs::Runs::run_within))]
pub fn quoted_len(bytes: &[u8]) -> usize
    ensures length { result ≡ run quoted.is_quoted_byte bytes.now }
    ensures within { result ≤ length bytes.now }
{
    let mut n = 0;
    while n < bytes.len() && is_quoted_byte(bytes[n]) {
        n += 1;
    }
    n
}

/// The number of digits in this base at the front.
#[tactic(auto, using(cel_tokens::proofs::Runs::run_empty, cel_tokens::proofs::Runs::run_more, cel_tokens::proofs::Runs::run_stops, cel_tokens::proofs::Runs::run_within, cel_tokens::proofs::Runs::run_first))]
pub fn digits_len(bytes: &[u8], base: u64) -> usize
    ensures length { result ≡ run (bytes_of.is_digit_of base) bytes.now }
    ensures within { result ≤ length bytes.now }
    ensures some { 0 < length bytes.now → bytes_of.is_digit_of base (get_or bytes.now 0 0) ≡ true → 1 ≤ result }
{
    let mut n = 0;
    while n < bytes.len() && is_digit_of(base, bytes[n]) {
        n += 1;
    }
    n
}

/// Whether two slashes are at the front.
fn opens_comment(bytes: &[u8]) -> bool
    ensures { result ≡ bytes_of.opens_comment bytes.now }
{
    match bytes {
        [first, second, ..] => *first == b'/' && *second == b'/',
        _ => false,
    }
}

/// Whether the first byte of these bytes is a blank or part of a comment.
fn is_between(in_comment: bool, byte: u8, bytes: &[u8]) -> bool
    ensures { result ≡ bytes_of.is_between in_comment byte bytes.now }
{
    in_comment || is_blank(byte) || opens_comment(bytes)
}

/// Whether the byte after this one is still in a comment.
fn stays_in_comment(in_comment: bool, byte: u8) -> bool
    ensures { result ≡ gap.stays_in_comment in_comment byte }
{
    if in_comment {
        byte != b'\n'
    } else {
        !is_blank(byte)
    }
}

/// The number of bytes of blanks and comments at the front.
#[tactic(auto, using(crate::proofs::Gaps::between_empty, crate::proofs::Gaps::between_more, crate::proofs::Gaps::between_stops))]
pub fn between(bytes: &[u8]) -> usize
    ensures length { result ≡ gap.between false bytes.now }
    ensures within { result ≤ length bytes.now }
{
    let mut n = 0;
    let mut in_comment = false;
    while n < bytes.len() && is_between(in_comment, bytes[n], tail(bytes, n)) {
        in_comment = stays_in_comment(in_comment, bytes[n]);
        n += 1;
    }
    n
}
