//! The JSON escape of a long text, in the text's own buffer.

ghost use Rattle.std.specs.Prelude.{◌≡◌, ◌+◌, ◌*◌, ◌^◌, ◌∷◌, ◌++◌, ◌≤◌, ◌<◌, [], length, take, drop, slice_index, IfOk};
ghost use Rattle.std.specs.Bool.{OnTrue};
ghost use Rattle.std.specs.Char.{digit_char};
ghost use Rattle.json.specs.Print.{escape, escape_byte, escape_letter, quoted};

use std::alloc::AllocError;

/// No text is longer; the lengths of its escapes are then below 2^63.
const MOST: usize = 1 << 60;

/// Room for what a response has after its message.
const SPARE: usize = 256;

/// Appends the text in quotes to the bytes. All of it is in the buffer of the text, which grows but
/// is not copied.
pub(crate) fn quoted_after(bytes: Vec<u8>, text: Vec<u8>) -> Result<Vec<u8>, AllocError>
    ensures { IfOk result (λ more. more.items ≡ bytes.items ++ quoted text.items) }
{
    let mut bytes = bytes;
    bytes.extend_from_slice(b"\"")?;
    let mut text = escaped(text, bytes.len().saturating_add(SPARE))?;
    text.extend_from_slice(b"\"")?;
    text.extend_from_slice(bytes.as_slice())?;
    text.rotate_right(bytes.len());
    Ok(text)
}

/// The escape of a text, in the buffer of the text, with room for `spare` bytes more.
fn escaped(text: Vec<u8>, spare: usize) -> Result<Vec<u8>, AllocError>
    ensures { IfOk result (λ bytes. bytes.items ≡ escape text.items) }
{
    let mut bytes = text;
    let len = bytes.len();
    let more = added(bytes.as_slice())?;
    bytes.reserve_exact(more.saturating_add(spare))?;
    bytes.resize(len + more, 0)?;
    spread(bytes.as_mut_slice(), len);
    Ok(bytes)
}

/// The number of bytes that the escapes add.
fn added(text: &[u8]) -> Result<usize, AllocError>
    ensures len { IfOk result (λ more. length text.now + more ≡ length (escape text.now)) }
    ensures bound { IfOk result (λ more. more ≤ 5 * length text.now) }
    ensures within { IfOk result (λ more. length text.now ≤ 2 ^ 60) }
{
    if text.len() > MOST {
        return Err(AllocError);
    }
    let mut more = 0;
    for byte in text {
        if !is_plain(*byte) {
            more += added_by(*byte);
        }
    }
    Ok(more)
}

/// The number of bytes that the escape of a byte adds.
#[tactic(auto, unfolding(json::specs::Print::escape_byte))]
fn added_by(byte: u8) -> usize
    ensures value { length (escape_byte byte) ≡ result + 1 }
    ensures bound { result ≤ 5 }
{
    if letter(byte) > 0 {
        1
    } else if byte < b' ' {
        5
    } else {
        0
    }
}

/// Escapes the first `left` bytes into all of the buffer, the last byte first.
fn spread(text: &mut [u8], left: usize)
    requires within { left ≤ length text.old }
    requires room { length text.old ≡ length (escape (take left text.old)) }
    ensures { text.new ≡ escape (take left text.old) }
{
    let mut left = left;
    let mut end = text.len();
    while left < end {
        left -= 1;
        end = put(text, left, end);
    }
}

/// Writes the escape of byte `at` so that it ends at `end`; returns where it begins.
fn put(text: &mut [u8], at: usize, end: usize) -> usize
    requires before { at < end }
    requires within { end ≤ length text.old }
    requires room { at + length (escape_byte (slice_index text.old at)) ≤ end }
    ensures len { result + length (escape_byte (slice_index text.old at)) ≡ end }
    ensures items { text.new ≡ take result text.old ++ (escape_byte (slice_index text.old at) ++ drop end text.old) }
{
    let byte = text[at];
    if is_plain(byte) {
        text[end - 1] = byte;
        return end - 1;
    }
    let (escape, width) = escape_of(byte);
    let start = end - width;
    text[start..end].copy_from_slice(&escape[..width]);
    start
}

/// Whether the byte is its own escape.
#[tactic(auto, unfolding(json::specs::Print::escape_byte))]
fn is_plain(byte: u8) -> bool
    ensures { OnTrue result (escape_byte byte ≡ byte ∷ []) }
{
    byte >= b' ' && byte != b'"' && byte != b'\\'
}

/// The escape of a byte, and its length.
#[tactic(auto, unfolding(json::specs::Print::escape_byte))]
fn escape_of(byte: u8) -> ([u8; 6], usize)
    ensures value { take result.1 result.0 ≡ escape_byte byte }
    ensures len { result.1 ≡ length (escape_byte byte) }
    ensures bound { result.1 ≤ 6 }
{
    let letter = letter(byte);
    if letter > 0 {
        return ([b'\\', letter, 0, 0, 0, 0], 2);
    }
    if byte < b' ' {
        let (high, low) = (digit(byte / 16), digit(byte % 16));
        return ([b'\\', b'u', b'0', b'0', high, low], 6);
    }
    ([byte, 0, 0, 0, 0, 0], 1)
}

/// The letter of the short escape of a byte; 0 if it has none.
fn letter(byte: u8) -> u8
    ensures { result ≡ escape_letter byte }
{
    match byte {
        b'"' | b'\\' => byte,
        8 => b'b',
        12 => b'f',
        b'\n' => b'n',
        b'\r' => b'r',
        b'\t' => b't',
        _ => 0,
    }
}

/// A hexadecimal digit.
fn digit(value: u8) -> u8
    requires { value < 16 }
    ensures { result ≡ digit_char value }
{
    if value < 10 {
        b'0' + value
    } else {
        b'a' - 10 + value
    }
}
