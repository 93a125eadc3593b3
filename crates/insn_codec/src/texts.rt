//! Text of numbers, 64-bit words, offsets and addresses.
ghost use Rattle.std.specs.Prelude.{Some};
ghost use Rattle.insn_codec.specs.Lines.{address_text, offset_text, signed_decimal, wide_text};

use crate::register::Register;
use std::fmt;

/// A number, shown as decimal digits, with `-` if it is negative.
#[derive(Clone, Copy)]
pub(crate) struct NumberText(pub(crate) i32);

impl fmt::Display for NumberText {
    ghost output = { λ n. Some (signed_decimal n.0) };

    #[tactic(auto, using(crate::proofs::Decimals::shown))]
    fn fmt<W: fmt::Write>(&self, f: &mut fmt::Formatter<W>) -> fmt::Result {
        let number = self.0;
        write!(f, "{number}")
    }
}

/// An offset in slots or bytes, shown as decimal digits, always with its sign.
#[derive(Clone, Copy)]
pub(crate) struct OffsetText(pub(crate) i32);

impl fmt::Display for OffsetText {
    ghost output = { λ o. Some (offset_text o.0) };

    fn fmt<W: fmt::Write>(&self, f: &mut fmt::Formatter<W>) -> fmt::Result {
        let offset = NumberText(self.0);
        if self.0 < 0 {
            write!(f, "{offset}")
        } else {
            write!(f, "+{offset}")
        }
    }
}

/// A register and an offset in bytes, shown like `r1+8`.
#[derive(Clone, Copy)]
pub(crate) struct AddressText(pub(crate) Register, pub(crate) i16);

impl fmt::Display for AddressText {
    ghost output = { λ a. Some (address_text a.0 a.1) };

    fn fmt<W: fmt::Write>(&self, f: &mut fmt::Formatter<W>) -> fmt::Result {
        let base = self.0;
        let offset = OffsetText(self.1 as i32);
        write!(f, "{base}{offset}")
    }
}

/// A 64-bit number, shown as `0x` and its 16 lower-case hex digits.
#[derive(Clone, Copy)]
pub(crate) struct WideText(pub(crate) u64);

impl fmt::Display for WideText {
    ghost output = { λ w. Some (wide_text w.0) };

    #[tactic(auto, using(crate::proofs::Hex::hex_word))]
    fn fmt<W: fmt::Write>(&self, f: &mut fmt::Formatter<W>) -> fmt::Result {
        let number = self.0;
        write!(f, "0x{number:016x}")
    }
}
