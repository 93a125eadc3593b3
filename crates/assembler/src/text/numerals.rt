//! Decimal numbers.
ghost use Rattle.std.specs.Prelude.{◌≡◌, ◌⊎◌, ℤ, MatchOption};
ghost use Rattle.std.specs.Str.{all_ascii_digits};
ghost use Rattle.insn_codec.specs.Lines.{offset_text, signed_decimal};
ghost use Rattle.assembler.specs.Numbers.{is_decimal, is_immediate, is_offset, is_positive};
ghost use Rattle.assembler.specs.Parts.{NumeralIs};

/// A decimal number.
#[derive(Clone, Copy)]
pub(crate) enum Numeral {
    /// A number that fits 32 bits signed.
    Small(i32),
    /// A number that does not.
    Wide,
}

/// The number of an immediate such as `12` or `-3`.
pub(crate) fn immediate(text: &str) -> Option<Numeral>
    ensures { MatchOption result ((z : ℤ) → text.now ≡ signed_decimal z → ⊥) (λ n. (z : ℤ) × NumeralIs n z × (text.now ≡ signed_decimal z)) }
{
    if is_immediate(text.as_bytes()) {
        Some(number(text))
    } else {
        None
    }
}

/// The number of an offset such as `+12` or `-3`.
pub(crate) fn offset(text: &str) -> Option<Numeral>
    ensures { MatchOption result ((z : ℤ) → text.now ≡ offset_text z → ⊥) (λ n. (z : ℤ) × NumeralIs n z × (text.now ≡ offset_text z)) }
{
    if is_offset(text.as_bytes()) {
        Some(number(text))
    } else {
        None
    }
}

/// The number of a text that has the form of a number.
fn number(text: &str) -> Numeral
    ensures { (z : ℤ) → (text.now ≡ signed_decimal z) ⊎ (text.now ≡ offset_text z) → NumeralIs result z }
{
    match text.parse::<i32>() {
        Ok(number) => Numeral::Small(number),
        Err(_) => Numeral::Wide,
    }
}

fn is_immediate(bytes: &[u8]) -> bool
    ensures { result ≡ is_immediate bytes.now }
{
    match bytes {
        [b'-', digits @ ..] => is_positive(digits),
        _ => is_decimal(bytes),
    }
}

fn is_offset(bytes: &[u8]) -> bool
    ensures { result ≡ is_offset bytes.now }
{
    match bytes {
        [b'+', digits @ ..] => is_decimal(digits),
        [b'-', digits @ ..] => is_positive(digits),
        _ => false,
    }
}

fn is_decimal(digits: &[u8]) -> bool
    ensures { result ≡ is_decimal digits.now }
{
    digits == b"0".as_slice() || is_positive(digits)
}

/// Whether these are digits without leading zeros.
fn is_positive(digits: &[u8]) -> bool
    ensures { result ≡ is_positive digits.now }
{
    match digits {
        [] => false,
        [b'0', ..] => false,
        _ => all_digits(digits),
    }
}

fn all_digits(bytes: &[u8]) -> bool
    ensures { result ≡ all_ascii_digits bytes.now }
{
    for byte in bytes {
        if !byte.is_ascii_digit() {
            return false;
        }
    }
    true
}
