//! Decoding by the fields that the opcode names; the other fields are checked afterwards.
ghost use Rattle.std.specs.Prelude.{◌≡◌};
ghost use Rattle.insn_codec.specs.Candidate.{arithmetic_at, atomic_at, branch_at, candidate_at, jump_at, memory_at, wide_at};

use crate::alu_op::AluOp;
use crate::atomic_op::AtomicOp;
use crate::byte_order::ByteOrder;
use crate::comparison::Comparison;
use crate::extension::Extension;
use crate::insn::Insn;
use crate::operand::Operand;
use crate::register::Register;
use crate::signed_size::SignedSize;
use crate::size::Size;
use crate::slot::Slot;
use crate::swap_width::SwapWidth;
use crate::width::Width;

/// The only instruction that a slot with these fields can begin, by the opcode's class. `high` is the
/// next slot's imm, which only a wide load uses.
#[tactic(auto, unfolding(crate::specs::Candidate::candidate_at))]
pub(crate) fn candidate(slot: Slot, high: u32) -> Option<Insn>
    ensures { result ≡ candidate_at slot high }
{
    if slot.opcode == 0x18 {
        wide(slot, high)
    } else {
        match slot.opcode % 8 {
            4 => arithmetic(slot, Width::W32),
            5 => jump(slot, Width::W64),
            6 => jump(slot, Width::W32),
            7 => arithmetic(slot, Width::W64),
            _ => memory(slot),
        }
    }
}

#[tactic(auto, unfolding(crate::specs::Candidate::wide_at))]
fn wide(slot: Slot, high: u32) -> Option<Insn>
    ensures { result ≡ wide_at slot high }
{
    let dst = Register::of(slot.dst)?;
    let low = slot.imm.cast_unsigned() as u64;
    Some(Insn::LoadWide {
        dst,
        value: low + 0x1_0000_0000 * high as u64,
    })
}

#[tactic(auto, unfolding(crate::specs::Candidate::arithmetic_at))]
fn arithmetic(slot: Slot, width: Width) -> Option<Insn>
    ensures { result ≡ arithmetic_at slot width }
{
    let dst = Register::of(slot.dst)?;
    let code = slot.opcode / 16;
    if code == 0x8 {
        Some(Insn::Neg { width, dst })
    } else if code == 0xd {
        let order = ByteOrder::of(slot.opcode)?;
        let width = SwapWidth::of(slot.imm)?;
        Some(Insn::ByteSwap { order, width, dst })
    } else if slot.extends() {
        let extension = Extension::of(width, slot.offset)?;
        let src = Register::of(slot.src)?;
        Some(Insn::SignExtend {
            extension,
            dst,
            src,
        })
    } else {
        let op = AluOp::of(code, slot.offset)?;
        let operand = Operand::at(slot)?;
        Some(Insn::Alu {
            op,
            width,
            dst,
            operand,
        })
    }
}

#[tactic(auto, unfolding(crate::specs::Candidate::jump_at))]
fn jump(slot: Slot, width: Width) -> Option<Insn>
    ensures { result ≡ jump_at slot width }
{
    match slot.opcode {
        0x05 => Some(Insn::Jump {
            offset: slot.offset,
        }),
        0x06 => Some(Insn::JumpLong { offset: slot.imm }),
        0x85 => Some(if slot.src == 0 {
            Insn::Call { helper: slot.imm }
        } else {
            Insn::CallLocal { offset: slot.imm }
        }),
        0x95 => Some(Insn::Exit),
        _ => branch(slot, width),
    }
}

#[tactic(auto, unfolding(crate::specs::Candidate::branch_at))]
fn branch(slot: Slot, width: Width) -> Option<Insn>
    ensures { result ≡ branch_at slot width }
{
    let comparison = Comparison::of(slot.opcode / 16)?;
    let dst = Register::of(slot.dst)?;
    let operand = Operand::at(slot)?;
    Some(Insn::Branch {
        comparison,
        width,
        dst,
        operand,
        offset: slot.offset,
    })
}

#[tactic(auto, unfolding(crate::specs::Candidate::memory_at))]
fn memory(slot: Slot) -> Option<Insn>
    ensures { result ≡ memory_at slot }
{
    let dst = Register::of(slot.dst)?;
    let src = Register::of(slot.src)?;
    let offset = slot.offset;
    let code = slot.opcode / 8 % 4;
    match slot.opcode % 8 {
        1 if slot.opcode / 32 == 3 => Some(Insn::Load {
            size: Size::of(code)?,
            dst,
            src,
            offset,
        }),
        1 => Some(Insn::LoadSigned {
            size: SignedSize::of(code)?,
            dst,
            src,
            offset,
        }),
        2 => Some(Insn::StoreImm {
            size: Size::of(code)?,
            dst,
            offset,
            imm: slot.imm,
        }),
        3 if slot.opcode / 32 == 6 => atomic(slot, dst, src),
        3 => Some(Insn::Store {
            size: Size::of(code)?,
            dst,
            offset,
            src,
        }),
        _ => None,
    }
}

#[tactic(auto, unfolding(crate::specs::Candidate::atomic_at))]
fn atomic(slot: Slot, dst: Register, src: Register) -> Option<Insn>
    ensures { result ≡ atomic_at slot dst src }
{
    let width = Width::of_atomic(slot.opcode)?;
    let op = AtomicOp::of(slot.imm)?;
    Some(Insn::Atomic {
        op,
        width,
        dst,
        offset: slot.offset,
        src,
    })
}
