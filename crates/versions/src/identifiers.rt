//! Identifiers of versions.
ghost use Rattle.std.specs.Prelude.{◌≡◌, ◌<◌, ◌^◌, IsTrue, true};
ghost use Rattle.std.specs.List.{list_all};
ghost use Rattle.text_numbers.specs.Numbers.{number};
ghost use Rattle.versions.specs.Identifiers as specs;

use text_numbers::digits_number;

/// The least number of more than 64 bits.
const LIMIT: u128 = 18446744073709551616;

/// Whether the byte is one of `[0-9A-Za-z-]`.
fn is_identifier_byte(byte: u8) -> bool
    ensures { result ≡ specs.is_identifier_byte byte }
{
    byte.is_ascii_alphanumeric() || byte == b'-'
}

/// Whether each byte can be in an identifier.
fn has_identifier_bytes(part: &[u8]) -> bool
    ensures { result ≡ list_all specs.is_identifier_byte part.now }
{
    part.iter().all(|byte| is_identifier_byte(*byte))
}

/// Whether the part is an identifier.
#[tactic(auto, unfolding(crate::specs::Identifiers::is_identifier))]
fn is_identifier(part: &[u8]) -> bool
    ensures { result ≡ specs.is_identifier part.now }
{
    !part.is_empty() && has_identifier_bytes(part)
}

/// Whether each byte is a digit.
pub fn is_numeric(part: &[u8]) -> bool
    ensures { result ≡ specs.is_numeric part.now }
{
    part.iter().all(|byte| byte.is_ascii_digit())
}

/// Whether a zero is in front of other bytes.
pub fn has_zero(digits: &[u8]) -> bool
    ensures { result ≡ specs.has_zero digits.now }
{
    digits.len() > 1 && digits[0] == b'0'
}

/// Whether digits denote a number of 64 bits.
#[tactic(auto, using(crate::proofs::Sizes::capped))]
pub fn is_small(digits: &[u8]) -> bool
    ensures { result ≡ specs.is_small digits.now }
{
    digits_number(digits) < LIMIT
}

/// Whether digits are a number of 64 bits with no zero in front.
#[tactic(auto, unfolding(crate::specs::Identifiers::is_number))]
fn is_number(digits: &[u8]) -> bool
    ensures { result ≡ specs.is_number digits.now }
{
    !has_zero(digits) && is_small(digits)
}

/// Whether the part is an identifier of a pre-release.
#[tactic(auto, unfolding(crate::specs::Identifiers::is_pre_identifier))]
fn is_pre_identifier(part: &[u8]) -> bool
    ensures { result ≡ specs.is_pre_identifier part.now }
{
    is_identifier(part) && (!is_numeric(part) || is_number(part))
}

/// Whether the parts between dots are identifiers of a pre-release.
pub fn are_pre_identifiers(text: &[u8]) -> bool
    ensures { result ≡ specs.are_pre_identifiers text.now }
{
    text.split(|byte| *byte == b'.')
        .all(|part| is_pre_identifier(part))
}

/// Whether the parts between dots are identifiers.
pub fn are_identifiers(text: &[u8]) -> bool
    ensures { result ≡ specs.are_identifiers text.now }
{
    text.split(|byte| *byte == b'.')
        .all(|part| is_identifier(part))
}
