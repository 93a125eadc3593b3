//! The fields of a slot, and their packing into a word.

ghost use Rattle.std.specs.Prelude.{◌≡◌, ◌<◌};
ghost use Rattle.std.specs.Int.{w64, to_le_bytes};

use crate::register::Register;

/// The fields of one slot of eight bytes (RFC 9669, section 3). `dst` and `src` have four bits each.
#[derive(Clone, Copy)]
pub struct Slot {
    pub opcode: u8,
    pub dst: u8,
    pub src: u8,
    pub offset: i16,
    pub imm: i32,
}

impl Slot {
    ghost use Rattle.std.specs.Prelude.{◌/◌, ◌==◌, ◌&&◌, not};
    ghost use Rattle.insn_codec.specs.Families.{holds};
    ghost use Rattle.insn_codec.specs.Codes.{register_number};
    ghost use Rattle.insn_codec.specs.Slots.{IsSlot, slot_bytes, slot_with};

    /// The slot with these fields.
    pub(crate) fn with(opcode: u8, dst: u8, src: u8, offset: i16, imm: i32) -> Slot
        ensures { result ≡ slot_with opcode dst src offset imm }
    {
        Slot {
            opcode,
            dst,
            src,
            offset,
            imm,
        }
    }

    /// The slot with these fields, from two registers.
    pub(crate) fn between(opcode: u8, dst: Register, src: Register, offset: i16, imm: i32) -> Slot
        ensures { result ≡ slot_with opcode (register_number dst) (register_number src) offset imm }
    {
        Slot::with(opcode, dst.number(), src.number(), offset, imm)
    }

    /// The fields of the slot whose bytes, read little-endian, are this word.
    pub(crate) fn of_word(word: u64) -> Slot
        ensures bytes { slot_bytes result ≡ to_le_bytes w64 word }
        ensures ranges { IsSlot result }
    {
        let [
            opcode,
            registers,
            offset_0,
            offset_1,
            imm_0,
            imm_1,
            imm_2,
            imm_3,
        ] = word.to_le_bytes();
        Slot {
            opcode,
            dst: registers % 16,
            src: registers / 16,
            offset: i16::from_le_bytes([offset_0, offset_1]),
            imm: i32::from_le_bytes([imm_0, imm_1, imm_2, imm_3]),
        }
    }

    /// The slot's bytes, read little-endian.
    pub(crate) fn word(self) -> u64
        requires dst { self.dst < 16 }
        requires src { self.src < 16 }
        ensures { to_le_bytes w64 result ≡ slot_bytes self }
    {
        let registers = 16 * self.src + self.dst;
        let [offset_0, offset_1] = self.offset.to_le_bytes();
        let [imm_0, imm_1, imm_2, imm_3] = self.imm.to_le_bytes();
        u64::from_le_bytes([
            self.opcode,
            registers,
            offset_0,
            offset_1,
            imm_0,
            imm_1,
            imm_2,
            imm_3,
        ])
    }

    /// Whether a move has an offset other than 0, the number of bits that it extends (RFC 9669, section 4.1).
    pub(crate) fn extends(self) -> bool
        ensures { result ≡ ((self.opcode / 16 == 0xb) && not (holds self.offset 0)) }
    {
        self.opcode / 16 == 0xb && self.offset != 0
    }
}
