//! The instructions of the machine.

ghost use Rattle.std.specs.Prelude.{◌≡◌, ◌*◌, length, Some};
ghost use Rattle.insn_codec.specs.Lines.{line_text, mnemonic_of, operands_of, register_text};
ghost use Rattle.insn_codec.specs.LineOperands.{operand_shown, operand_texts};

use crate::alu_op::AluOp;
use crate::atomic_op::AtomicOp;
use crate::byte_order::ByteOrder;
use crate::comparison::Comparison;
use crate::extension::Extension;
use crate::line_operand::LineOperand;
use crate::line_operands::LineOperands;
use crate::mnemonic::Mnemonic;
use crate::operand::Operand;
use crate::register::Register;
use crate::signed_size::SignedSize;
use crate::size::Size;
use crate::slot::Slot;
use crate::swap_width::SwapWidth;
use crate::width::Width;
use std::fmt;

/// An instruction of the machine (RFC 9669, sections 4 and 5).
#[derive(Clone, Copy, Debug, PartialEq, Eq)]
pub enum Insn {
    /// Arithmetic on a register, which it writes (section 4.1).
    Alu {
        op: AluOp,
        width: Width,
        dst: Register,
        operand: Operand,
    },
    /// The negation of a register (section 4.1).
    Neg {
        width: Width,
        dst: Register,
    },
    /// A sign-extending move (section 4.1).
    SignExtend {
        extension: Extension,
        dst: Register,
        src: Register,
    },
    /// A byte swap of a register (section 4.2).
    ByteSwap {
        order: ByteOrder,
        width: SwapWidth,
        dst: Register,
    },
    /// A jump by an offset in slots from the next one on (section 4.3).
    Jump {
        offset: i16,
    },
    /// A jump with an offset of 32 bits (section 4.3).
    JumpLong {
        offset: i32,
    },
    /// A jump that is taken if the comparison holds (section 4.3).
    Branch {
        comparison: Comparison,
        width: Width,
        dst: Register,
        operand: Operand,
        offset: i16,
    },
    /// A call of the helper function with this number (section 4.3.1).
    Call {
        helper: i32,
    },
    /// A call of the program's own function, by an offset in slots from the next one on (section 4.3.2).
    CallLocal {
        offset: i32,
    },
    /// The end of the function, or of the program with R0 as its result (section 4.3).
    Exit,
    /// A load of the bytes at src + offset (section 5.1).
    Load {
        size: Size,
        dst: Register,
        src: Register,
        offset: i16,
    },
    /// A sign-extending load (section 5.2).
    LoadSigned {
        size: SignedSize,
        dst: Register,
        src: Register,
        offset: i16,
    },
    /// A store of a constant at dst + offset (section 5.1).
    StoreImm {
        size: Size,
        dst: Register,
        offset: i16,
        imm: i32,
    },
    /// A store of a register at dst + offset (section 5.1).
    Store {
        size: Size,
        dst: Register,
        offset: i16,
        src: Register,
    },
    /// An atomic read and write of the word at dst + offset, with a register (section 5.3).
    Atomic {
        op: AtomicOp,
        width: Width,
        dst: Register,
        offset: i16,
        src: Register,
    },
    /// A 64-bit constant, in two slots (section 5.4).
    LoadWide {
        dst: Register,
        value: u64,
    },
}

impl Insn {
    ghost use Rattle.insn_codec.specs.Spelling.{IsInsn, first_slot, slot_count, spelling};

    /// The number of slots of the instruction: 1, or 2 for a wide load.
    pub fn slots(&self) -> u64
        ensures count { result ≡ slot_count self.now }
        ensures bytes { result * 8 ≡ length (spelling self.now) }
    {
        match self {
            Insn::LoadWide { .. } => 2,
            _ => 1,
        }
    }

    /// The fields of the first slot; unused fields are 0.
    pub(crate) fn first_slot(self) -> Slot
        ensures { result ≡ first_slot self }
    {
        match self {
            Insn::Alu {
                op,
                width,
                dst,
                operand,
            } => {
                let opcode = 16 * op.code() + 8 * operand.flag() + width.alu_class();
                Slot::with(
                    opcode,
                    dst.number(),
                    operand.src(),
                    op.offset(),
                    operand.imm(),
                )
            }
            Insn::Neg { width, dst } => Slot::with(0x80 + width.alu_class(), dst.number(), 0, 0, 0),
            Insn::SignExtend {
                extension,
                dst,
                src,
            } => {
                let opcode = 0xb8 + extension.width().alu_class();
                Slot::between(opcode, dst, src, extension.bits(), 0)
            }
            Insn::ByteSwap { order, width, dst } => {
                let opcode = order.opcode();
                Slot::with(opcode, dst.number(), 0, 0, width.bits())
            }
            Insn::Jump { offset } => Slot::with(0x05, 0, 0, offset, 0),
            Insn::JumpLong { offset } => Slot::with(0x06, 0, 0, 0, offset),
            Insn::Branch {
                comparison,
                width,
                dst,
                operand,
                offset,
            } => {
                let opcode = 16 * comparison.code() + 8 * operand.flag() + width.jump_class();
                Slot::with(opcode, dst.number(), operand.src(), offset, operand.imm())
            }
            Insn::Call { helper } => Slot::with(0x85, 0, 0, 0, helper),
            Insn::CallLocal { offset } => Slot::with(0x85, 0, 1, 0, offset),
            Insn::Exit => Slot::with(0x95, 0, 0, 0, 0),
            Insn::Load {
                size,
                dst,
                src,
                offset,
            } => Slot::between(0x61 + 8 * size.code(), dst, src, offset, 0),
            Insn::LoadSigned {
                size,
                dst,
                src,
                offset,
            } => Slot::between(0x81 + 8 * size.code(), dst, src, offset, 0),
            Insn::StoreImm {
                size,
                dst,
                offset,
                imm,
            } => Slot::with(0x62 + 8 * size.code(), dst.number(), 0, offset, imm),
            Insn::Store {
                size,
                dst,
                offset,
                src,
            } => Slot::between(0x63 + 8 * size.code(), dst, src, offset, 0),
            Insn::Atomic {
                op,
                width,
                dst,
                offset,
                src,
            } => Slot::between(width.atomic_opcode(), dst, src, offset, op.code()),
            Insn::LoadWide { dst, value } => {
                let low = (value % 0x1_0000_0000) as u32;
                Slot::with(0x18, dst.number(), 0, 0, low.cast_signed())
            }
        }
    }

    /// The mnemonic of the instruction's line.
    fn mnemonic(self) -> Mnemonic
        ensures { result ≡ mnemonic_of self }
    {
        match self {
            Insn::Alu { op, width, .. } => Mnemonic::Alu(op, width),
            Insn::Neg { width, .. } => Mnemonic::Neg(width),
            Insn::SignExtend { extension, .. } => Mnemonic::SignExtend(extension),
            Insn::ByteSwap { order, width, .. } => Mnemonic::ByteSwap(order, width),
            Insn::Jump { .. } => Mnemonic::Ja,
            Insn::JumpLong { .. } => Mnemonic::JaLong,
            Insn::Branch {
                comparison,
                width,
                ..
            } => Mnemonic::Branch(comparison, width),
            Insn::Call { .. } => Mnemonic::Call,
            Insn::CallLocal { .. } => Mnemonic::CallLocal,
            Insn::Exit => Mnemonic::Exit,
            Insn::Load { size, .. } => Mnemonic::Load(size),
            Insn::LoadSigned { size, .. } => Mnemonic::LoadSigned(size),
            Insn::StoreImm { size, .. } => Mnemonic::StoreImm(size),
            Insn::Store { size, .. } => Mnemonic::Store(size),
            Insn::Atomic { op, width, .. } => Mnemonic::Atomic(op, width),
            Insn::LoadWide { .. } => Mnemonic::LoadWide,
        }
    }

    /// The operands of the instruction's line.
    fn line_operands(self) -> LineOperands
        ensures { operand_texts result ≡ operands_of self }
    {
        match self {
            Insn::Alu { dst, operand, .. } => LineOperands::Two(
                named(dst),
                LineOperand::Operand(operand),
            ),
            Insn::Neg { dst, .. } | Insn::ByteSwap { dst, .. } => LineOperands::One(named(dst)),
            Insn::SignExtend { dst, src, .. } => LineOperands::Two(named(dst), named(src)),
            Insn::Jump { offset } => LineOperands::One(LineOperand::Offset(offset as i32)),
            Insn::JumpLong { offset } => LineOperands::One(LineOperand::Offset(offset)),
            Insn::CallLocal { offset } => LineOperands::One(LineOperand::Offset(offset)),
            Insn::Branch {
                dst,
                operand,
                offset,
                ..
            } => LineOperands::Three(
                named(dst),
                LineOperand::Operand(operand),
                LineOperand::Offset(offset as i32),
            ),
            Insn::Call { helper } => LineOperands::One(LineOperand::Operand(Operand::Imm(helper))),
            Insn::Exit => LineOperands::Zero,
            Insn::Load {
                dst,
                src,
                offset,
                ..
            } => LineOperands::Two(named(dst), LineOperand::Place(src, offset)),
            Insn::LoadSigned {
                dst,
                src,
                offset,
                ..
            } => LineOperands::Two(named(dst), LineOperand::Place(src, offset)),
            Insn::StoreImm {
                dst,
                offset,
                imm,
                ..
            } => LineOperands::Two(
                LineOperand::Place(dst, offset),
                LineOperand::Operand(Operand::Imm(imm)),
            ),
            Insn::Store {
                dst,
                offset,
                src,
                ..
            } => LineOperands::Two(LineOperand::Place(dst, offset), named(src)),
            Insn::Atomic {
                dst,
                offset,
                src,
                ..
            } => LineOperands::Two(LineOperand::Place(dst, offset), named(src)),
            Insn::LoadWide { dst, value } => LineOperands::Two(
                named(dst),
                LineOperand::Wide(value),
            ),
        }
    }

    /// The numbers of an instruction fit their fields, as the laws on instructions require.
    pub fn in_range(self)
        ensures { IsInsn self }
    {}
}

/// The instruction's line: its mnemonic and its operands.
impl fmt::Display for Insn {
    ghost output = { λ i. Some (line_text i) };

    fn fmt<W: fmt::Write>(&self, f: &mut fmt::Formatter<W>) -> fmt::Result {
        let mnemonic = self.mnemonic();
        match self.line_operands() {
            LineOperands::Zero => write!(f, "{mnemonic}"),
            LineOperands::One(only) => write!(f, "{mnemonic} {only}"),
            LineOperands::Two(first, second) => write!(f, "{mnemonic} {first}, {second}"),
            LineOperands::Three(first, second, third) => {
                write!(f, "{mnemonic} {first}, {second}, {third}")
            }
        }
    }
}

/// A register's name as an operand.
fn named(register: Register) -> LineOperand
    ensures { operand_shown result ≡ register_text register }
{
    LineOperand::Operand(Operand::Reg(register))
}
