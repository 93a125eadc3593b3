//! Mnemonics by their texts.
ghost use Rattle.std.specs.Prelude.{◌≡◌, ◌++◌, ℕ, List, codes, MatchOption};
ghost use Rattle.insn_codec.specs.Mnemonics.{alu_text, atomic_text, comparison_text, extension_text, mnemonic_text, signed_size_text, size_text, swap_text, width_text};
ghost use Rattle.insn_codec.specs.declared.alu_op.AluOp.{AluOp};
ghost use Rattle.insn_codec.specs.declared.atomic_op.AtomicOp.{AtomicOp};
ghost use Rattle.insn_codec.specs.declared.comparison.Comparison.{Comparison};
ghost use Rattle.insn_codec.specs.declared.extension.Extension.{Extension};
ghost use Rattle.insn_codec.specs.declared.signed_size.SignedSize.{SignedSize};
ghost use Rattle.insn_codec.specs.declared.size.Size.{Size};
ghost use Rattle.insn_codec.specs.declared.swap_width.SwapWidth.{SwapWidth};
ghost use Rattle.insn_codec.specs.declared.width.Width.{Width};
ghost use Rattle.assembler.specs.Mnemonics.{IsAtomic, IsConversion, IsFixed, IsOfWidth, IsTransfer};
ghost use Rattle.insn_codec.specs.declared.mnemonic.Mnemonic.{Mnemonic};

use crate::text::affixes::{after, before};
use insn_codec::{
    AluOp, AtomicOp, ByteOrder, Comparison, Extension, Mnemonic, SignedSize, Size, SwapWidth, Width,
};

/// The mnemonic with this text.
pub(crate) fn mnemonic_of(word: &str) -> Option<Mnemonic>
    ensures { MatchOption result ((m : Mnemonic) → word.now ≡ mnemonic_text m → ⊥) (λ m. word.now ≡ mnemonic_text m) }
{
    if let Some(found) = fixed(word) {
        return Some(found);
    }
    if let Some(found) = transfer(word) {
        return Some(found);
    }
    if let Some(found) = conversion(word) {
        return Some(found);
    }
    if let Some(found) = atomic(word) {
        return Some(found);
    }
    of_width(word)
}

fn fixed(word: &str) -> Option<Mnemonic>
    ensures { MatchOption result ((m : Mnemonic) → IsFixed m → word.now ≡ mnemonic_text m → ⊥) (λ m. word.now ≡ mnemonic_text m) }
{
    match word {
        "ja" => Some(Mnemonic::Ja),
        "ja32" => Some(Mnemonic::JaLong),
        "call" => Some(Mnemonic::Call),
        "call_local" => Some(Mnemonic::CallLocal),
        "exit" => Some(Mnemonic::Exit),
        "lddw" => Some(Mnemonic::LoadWide),
        ".slot" => Some(Mnemonic::Slot),
        _ => None,
    }
}

fn transfer(word: &str) -> Option<Mnemonic>
    ensures { MatchOption result ((m : Mnemonic) → IsTransfer m → word.now ≡ mnemonic_text m → ⊥) (λ m. word.now ≡ mnemonic_text m) }
{
    if let Some(size) = sized(word, "ldx") {
        return Some(Mnemonic::Load(size));
    }
    if let Some(size) = sized(word, "st") {
        return Some(Mnemonic::StoreImm(size));
    }
    if let Some(size) = sized(word, "stx") {
        return Some(Mnemonic::Store(size));
    }
    let size = signed(word)?;
    Some(Mnemonic::LoadSigned(size))
}

fn conversion(word: &str) -> Option<Mnemonic>
    ensures { MatchOption result ((m : Mnemonic) → IsConversion m → word.now ≡ mnemonic_text m → ⊥) (λ m. word.now ≡ mnemonic_text m) }
{
    if let Some(extension) = extended(word) {
        return Some(Mnemonic::SignExtend(extension));
    }
    if let Some(width) = swapped(word, "le") {
        return Some(Mnemonic::ByteSwap(ByteOrder::Little, width));
    }
    if let Some(width) = swapped(word, "be") {
        return Some(Mnemonic::ByteSwap(ByteOrder::Big, width));
    }
    let width = swapped(word, "swap")?;
    Some(Mnemonic::ByteSwap(ByteOrder::Swap, width))
}

#[tactic(auto, using(crate::proofs::Ends::no_atomic_front))]
fn atomic(word: &str) -> Option<Mnemonic>
    ensures { MatchOption result ((m : Mnemonic) → IsAtomic m → word.now ≡ mnemonic_text m → ⊥) (λ m. word.now ≡ mnemonic_text m) }
{
    let text = after(word, "atomic_")?;
    let (op, width) = atomic_of_width(text)?;
    Some(Mnemonic::Atomic(op, width))
}

/// An atomic operation and its width.
fn atomic_of_width(text: &str) -> Option<(AtomicOp, Width)>
    ensures { MatchOption result ((op : AtomicOp) (width : Width) → text.now ≡ atomic_text op ++ width_text width → ⊥) (λ x. text.now ≡ atomic_text x.0 ++ width_text x.1) }
{
    let (name, width) = split_width(text)?;
    let op = atomic_op(name)?;
    Some((op, width))
}

fn of_width(word: &str) -> Option<Mnemonic>
    ensures { MatchOption result ((m : Mnemonic) → IsOfWidth m → word.now ≡ mnemonic_text m → ⊥) (λ m. word.now ≡ mnemonic_text m) }
{
    let (name, width) = split_width(word)?;
    if name == "neg" {
        return Some(Mnemonic::Neg(width));
    }
    if let Some(op) = alu_op(name) {
        return Some(Mnemonic::Alu(op, width));
    }
    let comparison = comparison(name)?;
    Some(Mnemonic::Branch(comparison, width))
}

/// The text before a width, and the width.
fn split_width(word: &str) -> Option<(&str, Width)>
    ensures { MatchOption result ((name : List ℕ) (width : Width) → word.now ≡ name ++ width_text width → ⊥) (λ x. word.now ≡ x.0.now ++ width_text x.1) }
{
    if let Some(name) = before(word, "32") {
        return Some((name, Width::W32));
    }
    let name = before(word, "64")?;
    Some((name, Width::W64))
}

fn sized(word: &str, prefix: &str) -> Option<Size>
    ensures { MatchOption result ((size : Size) → word.now ≡ prefix.now ++ size_text size → ⊥) (λ size. word.now ≡ prefix.now ++ size_text size) }
{
    let text = after(word, prefix)?;
    size(text)
}

fn signed(word: &str) -> Option<SignedSize>
    ensures { MatchOption result ((size : SignedSize) → word.now ≡ codes "ldxs" ++ signed_size_text size → ⊥) (λ size. word.now ≡ codes "ldxs" ++ signed_size_text size) }
{
    let text = after(word, "ldxs")?;
    signed_size(text)
}

fn extended(word: &str) -> Option<Extension>
    ensures { MatchOption result ((extension : Extension) → word.now ≡ codes "movsx" ++ extension_text extension → ⊥) (λ extension. word.now ≡ codes "movsx" ++ extension_text extension) }
{
    let text = after(word, "movsx")?;
    extension(text)
}

fn swapped(word: &str, prefix: &str) -> Option<SwapWidth>
    ensures { MatchOption result ((width : SwapWidth) → word.now ≡ prefix.now ++ swap_text width → ⊥) (λ width. word.now ≡ prefix.now ++ swap_text width) }
{
    let text = after(word, prefix)?;
    swap_width(text)
}

fn alu_op(name: &str) -> Option<AluOp>
    ensures { MatchOption result ((op : AluOp) → name.now ≡ alu_text op → ⊥) (λ op. name.now ≡ alu_text op) }
{
    match name {
        "add" => Some(AluOp::Add),
        "sub" => Some(AluOp::Sub),
        "mul" => Some(AluOp::Mul),
        "div" => Some(AluOp::Div),
        "sdiv" => Some(AluOp::Sdiv),
        "or" => Some(AluOp::Or),
        "and" => Some(AluOp::And),
        "lsh" => Some(AluOp::Lsh),
        "rsh" => Some(AluOp::Rsh),
        "mod" => Some(AluOp::Mod),
        "smod" => Some(AluOp::Smod),
        "xor" => Some(AluOp::Xor),
        "mov" => Some(AluOp::Mov),
        "arsh" => Some(AluOp::Arsh),
        _ => None,
    }
}

fn atomic_op(name: &str) -> Option<AtomicOp>
    ensures { MatchOption result ((op : AtomicOp) → name.now ≡ atomic_text op → ⊥) (λ op. name.now ≡ atomic_text op) }
{
    match name {
        "add" => Some(AtomicOp::Add),
        "or" => Some(AtomicOp::Or),
        "and" => Some(AtomicOp::And),
        "xor" => Some(AtomicOp::Xor),
        "fetch_add" => Some(AtomicOp::FetchAdd),
        "fetch_or" => Some(AtomicOp::FetchOr),
        "fetch_and" => Some(AtomicOp::FetchAnd),
        "fetch_xor" => Some(AtomicOp::FetchXor),
        "xchg" => Some(AtomicOp::Exchange),
        "cmpxchg" => Some(AtomicOp::CompareExchange),
        _ => None,
    }
}

fn comparison(name: &str) -> Option<Comparison>
    ensures { MatchOption result ((comparison : Comparison) → name.now ≡ comparison_text comparison → ⊥) (λ comparison. name.now ≡ comparison_text comparison) }
{
    match name {
        "jeq" => Some(Comparison::Eq),
        "jgt" => Some(Comparison::Gt),
        "jge" => Some(Comparison::Ge),
        "jset" => Some(Comparison::Set),
        "jne" => Some(Comparison::Ne),
        "jsgt" => Some(Comparison::Sgt),
        "jsge" => Some(Comparison::Sge),
        "jlt" => Some(Comparison::Lt),
        "jle" => Some(Comparison::Le),
        "jslt" => Some(Comparison::Slt),
        "jsle" => Some(Comparison::Sle),
        _ => None,
    }
}

fn extension(text: &str) -> Option<Extension>
    ensures { MatchOption result ((extension : Extension) → text.now ≡ extension_text extension → ⊥) (λ extension. text.now ≡ extension_text extension) }
{
    match text {
        "8to32" => Some(Extension::From8To32),
        "16to32" => Some(Extension::From16To32),
        "8to64" => Some(Extension::From8To64),
        "16to64" => Some(Extension::From16To64),
        "32to64" => Some(Extension::From32To64),
        _ => None,
    }
}

fn swap_width(text: &str) -> Option<SwapWidth>
    ensures { MatchOption result ((width : SwapWidth) → text.now ≡ swap_text width → ⊥) (λ width. text.now ≡ swap_text width) }
{
    match text {
        "16" => Some(SwapWidth::Bits16),
        "32" => Some(SwapWidth::Bits32),
        "64" => Some(SwapWidth::Bits64),
        _ => None,
    }
}

fn size(text: &str) -> Option<Size>
    ensures { MatchOption result ((size : Size) → text.now ≡ size_text size → ⊥) (λ size. text.now ≡ size_text size) }
{
    match text {
        "b" => Some(Size::B),
        "h" => Some(Size::H),
        "w" => Some(Size::W),
        "dw" => Some(Size::Dw),
        _ => None,
    }
}

fn signed_size(text: &str) -> Option<SignedSize>
    ensures { MatchOption result ((size : SignedSize) → text.now ≡ signed_size_text size → ⊥) (λ size. text.now ≡ signed_size_text size) }
{
    match text {
        "b" => Some(SignedSize::B),
        "h" => Some(SignedSize::H),
        "w" => Some(SignedSize::W),
        _ => None,
    }
}
