//! The machine's instructions and their encoding in 64-bit words.
#![tactic(auto)]

mod alu_op;
mod atomic_op;
mod byte_order;
mod candidate;
mod codec;
mod comparison;
mod extension;
mod insn;
mod laws;
mod limits;
mod line_operand;
mod line_operands;
mod mnemonic;
mod operand;
mod register;
mod signed_size;
mod size;
mod slot;
mod statement;
mod swap_width;
mod texts;
mod width;

pub use alu_op::AluOp;
pub use atomic_op::AtomicOp;
pub use byte_order::ByteOrder;
pub use codec::{decode, encode, round_trip};
pub use comparison::Comparison;
pub use extension::Extension;
pub use insn::Insn;
pub use laws::{
    lines_stand, no_line_feed, one_reading, opcodes_stand, refusals_stand, rows_stand,
    slots_are_filled, spelled_is_spelling, statement_is_spelled,
};
pub use limits::SLOT_LIMIT;
pub use mnemonic::Mnemonic;
pub use operand::Operand;
pub use register::Register;
pub use signed_size::SignedSize;
pub use size::Size;
pub use statement::Statement;
pub use swap_width::SwapWidth;
pub use width::Width;
