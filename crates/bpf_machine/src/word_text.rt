//! Printed words.
ghost use Rattle.std.specs.Prelude.{Some};
ghost use Rattle.bpf_machine.specs.Text.{word_text};

use std::fmt;

/// A word that prints as `0x` and 16 lower-case hex digits.
#[derive(Clone, Copy, Debug, PartialEq, Eq)]
pub struct WordText(pub u64);

impl fmt::Display for WordText {
    ghost output = { λ w. Some (word_text w.0) };

    #[tactic(auto, using(insn_codec::proofs::Hex::hex_word))]
    fn fmt<W: fmt::Write>(&self, f: &mut fmt::Formatter<W>) -> fmt::Result {
        let word = self.0;
        write!(f, "0x{word:016x}")
    }
}
