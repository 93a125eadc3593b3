//! Registers by their names.
ghost use Rattle.std.specs.Prelude.{◌≡◌, MatchOption};
ghost use Rattle.insn_codec.specs.Lines.{register_text};
ghost use Rattle.insn_codec.specs.declared.register.Register.{Register};

use insn_codec::Register;

/// The register with this name, `r0` to `r10`.
pub(crate) fn register(text: &str) -> Option<Register>
    ensures { MatchOption result ((r : Register) → text.now ≡ register_text r → ⊥) (λ r. text.now ≡ register_text r) }
{
    match text {
        "r0" => Some(Register::R0),
        "r1" => Some(Register::R1),
        "r2" => Some(Register::R2),
        "r3" => Some(Register::R3),
        "r4" => Some(Register::R4),
        "r5" => Some(Register::R5),
        "r6" => Some(Register::R6),
        "r7" => Some(Register::R7),
        "r8" => Some(Register::R8),
        "r9" => Some(Register::R9),
        "r10" => Some(Register::R10),
        _ => None,
    }
}
