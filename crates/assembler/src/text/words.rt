//! 64-bit words.
ghost use Rattle.std.specs.Prelude.{◌≡◌, ◌<◌, ◌^◌, ℕ, MatchOption};
ghost use Rattle.insn_codec.specs.Lines.{wide_text};
ghost use Rattle.assembler.specs.Hex.{all_hex_digits, is_hex_digit};

use crate::text::affixes::after;

/// The number of hex digits of 64 bits.
const DIGITS: usize = 16;

/// The word that is written as `0x` and its 16 digits, lower case.
pub(crate) fn wide(text: &str) -> Option<u64>
    ensures { MatchOption result ((w : ℕ) → w < 2 ^ 64 → text.now ≡ wide_text w → ⊥) (λ w. text.now ≡ wide_text w) }
{
    let digits = after(text, "0x")?;
    if digits.len() != DIGITS {
        return None;
    }
    if !all_hex_digits(digits.as_bytes()) {
        return None;
    }
    match u64::from_str_radix(digits, 16) {
        Ok(word) => Some(word),
        Err(_) => None,
    }
}

fn all_hex_digits(bytes: &[u8]) -> bool
    ensures { result ≡ all_hex_digits bytes.now }
{
    bytes.iter().all(|byte| is_hex_digit(*byte))
}

fn is_hex_digit(byte: u8) -> bool
    ensures { result ≡ is_hex_digit byte }
{
    matches!(byte, b'0'..=b'9' | b'a'..=b'f')
}
