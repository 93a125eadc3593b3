//! Numbers times powers of 10, capped at the greatest `u128`.
ghost use Rattle.std.specs.Prelude.{◌≡◌, ◌<◌, ◌-◌, ◌*◌, ◌^◌, min};
ghost use Rattle.std.specs.Int.{div_ceil};
ghost use Rattle.quantities.specs.Quantities as specs;

/// 10 to this power, capped.
#[tactic(auto, using(crate::proofs::Caps::tens))]
fn tens(power: u128) -> u128
    ensures { result ≡ min (10 ^ power) (2 ^ 128 - 1) }
{
    10u128.saturating_pow(power.min(39) as u32)
}

/// A number times 10 to this power, capped.
#[tactic(auto, using(crate::proofs::Caps::raised))]
pub fn raised(number: u128, power: u128) -> u128
    ensures { result ≡ min (number * 10 ^ power) (2 ^ 128 - 1) }
{
    number.saturating_mul(tens(power))
}

/// A number divided by 10 to this power, rounded up.
#[tactic(auto, using(crate::proofs::Caps::lowered, crate::proofs::Caps::some_tens))]
fn lowered(number: u128, power: u128) -> u128
    ensures { number < 2 ^ 128 - 1 → result ≡ div_ceil number (10 ^ power) }
{
    let divisor = tens(power);
    number.div_ceil(divisor)
}

/// A number times a power of 10, rounded up and capped.
#[tactic(auto, using(crate::proofs::Caps::scaling))]
pub fn scaled(number: u128, power: i128) -> u128
    ensures { number < 2 ^ 128 - 1 → result ≡ min (specs.scaled number power) (2 ^ 128 - 1) }
{
    if power >= 0 {
        raised(number, power.unsigned_abs())
    } else {
        lowered(number, power.unsigned_abs())
    }
}
