//! Mnemonics of a program's text.

ghost use Rattle.std.specs.Prelude.{◌≡◌, ◌++◌, Some};
ghost use Rattle.insn_codec.specs.Mnemonics.{mnemonic_text};

use crate::alu_op::AluOp;
use crate::atomic_op::AtomicOp;
use crate::byte_order::ByteOrder;
use crate::comparison::Comparison;
use crate::extension::Extension;
use crate::signed_size::SignedSize;
use crate::size::Size;
use crate::swap_width::SwapWidth;
use crate::width::Width;
use std::fmt;

/// The first word of a line: the operation and its width or size (RFC 9669, sections 4 and 5).
#[derive(Clone, Copy, Debug, PartialEq, Eq)]
pub enum Mnemonic {
    /// Arithmetic, such as `add64`.
    Alu(AluOp, Width),
    /// The negation of a register, such as `neg64`.
    Neg(Width),
    /// A sign-extending move, such as `movsx8to32`.
    SignExtend(Extension),
    /// A byte swap, such as `be16`.
    ByteSwap(ByteOrder, SwapWidth),
    /// A jump with an offset of 16 bits, `ja`.
    Ja,
    /// A jump with an offset of 32 bits, `ja32`.
    JaLong,
    /// A conditional jump, such as `jeq32`.
    Branch(Comparison, Width),
    /// A call of a helper by its number, `call`.
    Call,
    /// A call of the program's own function, `call_local`.
    CallLocal,
    /// The end of the program or of its function, `exit`.
    Exit,
    /// A load of an unsigned number, such as `ldxb`.
    Load(Size),
    /// A load of a signed number, such as `ldxsb`.
    LoadSigned(SignedSize),
    /// A store of an immediate, such as `stb`.
    StoreImm(Size),
    /// A store of a register, such as `stxb`.
    Store(Size),
    /// An atomic operation on memory, such as `atomic_fetch_add64`.
    Atomic(AtomicOp, Width),
    /// A load of a 64-bit constant, `lddw`.
    LoadWide,
    /// A slot by its bytes, `.slot`.
    Slot,
}

impl Mnemonic {
    /// The text in three parts: what precedes the operation, the operation, and the width or size.
    fn parts(self) -> (&'static str, &'static str, &'static str)
        ensures { result.0.now ++ (result.1.now ++ result.2.now) ≡ mnemonic_text self }
    {
        match self {
            Mnemonic::Alu(op, width) => ("", op.name(), width.name()),
            Mnemonic::Neg(width) => ("neg", "", width.name()),
            Mnemonic::SignExtend(extension) => ("movsx", "", extension.name()),
            Mnemonic::ByteSwap(order, width) => ("", order.name(), width.name()),
            Mnemonic::Ja => ("ja", "", ""),
            Mnemonic::JaLong => ("ja32", "", ""),
            Mnemonic::Branch(comparison, width) => ("", comparison.name(), width.name()),
            Mnemonic::Call => ("call", "", ""),
            Mnemonic::CallLocal => ("call_local", "", ""),
            Mnemonic::Exit => ("exit", "", ""),
            Mnemonic::Load(size) => ("ldx", "", size.name()),
            Mnemonic::LoadSigned(size) => ("ldxs", "", size.name()),
            Mnemonic::StoreImm(size) => ("st", "", size.name()),
            Mnemonic::Store(size) => ("stx", "", size.name()),
            Mnemonic::Atomic(op, width) => ("atomic_", op.name(), width.name()),
            Mnemonic::LoadWide => ("lddw", "", ""),
            Mnemonic::Slot => (".slot", "", ""),
        }
    }
}

impl fmt::Display for Mnemonic {
    ghost output = { λ x. Some (mnemonic_text x) };

    fn fmt<W: fmt::Write>(&self, f: &mut fmt::Formatter<W>) -> fmt::Result {
        let (prefix, operation, suffix) = self.parts();
        write!(f, "{prefix}{operation}{suffix}")
    }
}
