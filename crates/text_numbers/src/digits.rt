//! Decimal digits.
ghost use Rattle.std.specs.Prelude.{◌≡◌, ◌≤◌, ◌-◌, ◌^◌, ◌++◌, length, min};
ghost use Rattle.text_numbers.specs.Numbers as specs;

/// The number of decimal digits at the front.
#[tactic(auto, using(crate::proofs::Decimals::digits_empty, crate::proofs::Decimals::digits_more, crate::proofs::Decimals::digits_stop))]
pub fn digits_len(text: &[u8]) -> usize
    ensures len { result ≡ specs.digits_len text.now }
    ensures within { result ≤ length text.now }
{
    let mut n = 0;
    while n < text.len() && text[n].is_ascii_digit() {
        n += 1;
    }
    n
}

/// The number that the digits denote after digits that denote `before`, capped at the greatest `u128`.
#[tactic(auto, using(crate::proofs::Decimals::number_empty, crate::proofs::Decimals::number_more))]
fn number_from(before: u128, digits: &[u8]) -> u128
    ensures { result ≡ min (specs.number_after before digits.now) (2 ^ 128 - 1) }
{
    let mut value = before;
    let mut n = 0;
    while n < digits.len() {
        let digit = u128::from(digits[n].saturating_sub(b'0'));
        value = value.saturating_mul(10).saturating_add(digit);
        n += 1;
    }
    value
}

/// The number that the digits denote, capped at the greatest `u128`.
pub fn digits_number(digits: &[u8]) -> u128
    ensures { result ≡ min (specs.number digits.now) (2 ^ 128 - 1) }
{
    number_from(0, digits)
}

/// The number that the digits of both denote, one after the other, capped at the greatest `u128`.
#[tactic(auto, using(crate::proofs::Decimals::joined))]
pub fn joined_number(front: &[u8], back: &[u8]) -> u128
    ensures { result ≡ min (specs.number (front.now ++ back.now)) (2 ^ 128 - 1) }
{
    number_from(digits_number(front), back)
}
