//! Splits the text of a line.
ghost use Rattle.std.specs.Prelude.{◌≡◌, ◌<◌, ℕ, ℤ, List, ◌∷◌, ◌++◌, IfSome, IsNone, MatchOption};
ghost use Rattle.insn_codec.specs.Lines.{address_text, offset_text, register_text};
ghost use Rattle.insn_codec.specs.declared.register.Register.{Register};
ghost use Rattle.assembler.specs.Forms.{HasNoByte, operand_list};

/// The text before the first comma and the text after it, without the space that must follow the comma.
pub(crate) fn cut(text: &str) -> Option<(&str, &str)>
    ensures cuts { IfSome result (λ x. text.now ≡ operand_list x.0.now x.1.now) }
    ensures only { (xs ys : List ℕ) → HasNoByte 44 xs → text.now ≡ operand_list xs ys → MatchOption result ⊥ (λ x. (x.0.now ≡ xs) × (x.1.now ≡ ys)) }
{
    let (first, rest) = text.split_once(',')?;
    let second = rest.strip_prefix(' ')?;
    Some((first, second))
}

/// The text before the first such sign, and the text from it on.
fn cut_before(text: &str, sign: char) -> Option<(&str, &str)>
    requires { sign < 128 }
    ensures cuts { IfSome result (λ x. text.now ≡ x.0.now ++ x.1.now) }
    ensures only { (xs ys : List ℕ) → HasNoByte sign xs → text.now ≡ xs ++ sign ∷ ys → MatchOption result ⊥ (λ x. (x.0.now ≡ xs) × (x.1.now ≡ sign ∷ ys)) }
    ensures none { HasNoByte sign text.now → IsNone result }
{
    let position = text.find(sign)?;
    Some(text.split_at(position))
}

/// The text before the first plus, or else the first minus, and the text from it on.
pub(crate) fn cut_at_sign(text: &str) -> Option<(&str, &str)>
    ensures cuts { IfSome result (λ x. text.now ≡ x.0.now ++ x.1.now) }
    ensures only { (r : Register) (z : ℤ) → text.now ≡ address_text r z → MatchOption result ⊥ (λ x. (x.0.now ≡ register_text r) × (x.1.now ≡ offset_text z)) }
{
    let Some((front, back)) = cut_before(text, '+') else {
        return cut_before(text, '-');
    };
    Some((front, back))
}
