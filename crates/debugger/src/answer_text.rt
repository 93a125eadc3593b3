//! The text of a reply.
ghost use Rattle.std.specs.Prelude.{◌≡◌, ◌≤◌, ◌<◌, ◌+◌, [], ◌++◌, ◌∷◌, ℕ, codes, length, decimal};
ghost use Rattle.std.specs.Fmt.{signed_decimal};
ghost use Rattle.insn_codec.specs.Codes.{register_number};
ghost use Rattle.debugger.specs.Answers.{break_text, clear_text};
ghost use Rattle.debugger.specs.Listing.{outside_line};
ghost use Rattle.bpf_machine.specs.Text.{hex_digit, hex_digits, move_line, register_line, register_lines, registers_text, status_text, word_text};

use arrayvec::ArrayVec;
use bpf_machine::Status;
use history::Emulator;
use insn_codec::Register;
use itoa::Buffer;
use std::marker::Model;

mod inspection;

/// The text of a reply that allocates nothing: it has its own buffer of 1,072 bytes, the maximum, for the 16
/// lines of 67 bytes each that show 256 bytes of memory.
#[derive(Drop)]
pub struct AnswerText {
    bytes: ArrayVec<u8, 1072>,
}

impl Model for AnswerText {
    ghost use Rattle.std.specs.Prelude.{ℕ, List};
    ghost use Rattle.std.specs.Coded.{codes};

    ghost Value = { List ℕ };

    ghost view = { λ t. t.bytes.items };
}

impl AnswerText {
    /// An empty text. Allocates nothing.
    pub fn new() -> AnswerText
        ensures { result ≡ [] }
    {
        AnswerText {
            bytes: ArrayVec::new(),
        }
    }

    pub fn as_slice(&self) -> &[u8]
        ensures { result.now ≡ self.now }
    {
        self.bytes.as_slice()
    }

    /// Appends these bytes.
    pub fn push_bytes(&mut self, bytes: &[u8])
        requires { length self.old + length bytes.now ≤ 1072 }
        ensures text { self.new ≡ self.old ++ bytes.now }
        ensures length { length self.new ≡ length self.old + length bytes.now }
    {
        match self.bytes.try_extend_from_slice(bytes) {
            Ok(()) => {}
            Err(_) => unreachable!(),
        }
    }

    fn push_byte(&mut self, byte: u8)
        requires { length self.old < 1072 }
        ensures text { self.new ≡ self.old ++ byte ∷ [] }
        ensures length { length self.new ≡ length self.old + 1 }
    {
        self.bytes.push(byte);
    }

    /// Appends the lowest `count` hex digits of a word.
    #[tactic(auto, using(crate::proofs::Texts::hex))]
    fn push_hex(&mut self, count: u32, word: u64)
        requires { length self.old + count ≤ 1072 }
        ensures text { self.new ≡ self.old ++ hex_digits count word }
        ensures length { length self.new ≡ length self.old + count }
    {
        if count == 0 {
            return;
        }
        self.push_hex(count - 1, word / 16);
        self.push_byte(hex_digit(word % 16));
    }

    /// Appends a number in decimal.
    fn push_number(&mut self, n: u64)
        requires { length self.old ≤ 1052 }
        ensures text { self.new ≡ self.old ++ decimal n }
        ensures length { length self.new ≤ length self.old + 20 }
    {
        self.push_bytes(Buffer::new().format(n).as_bytes());
    }

    /// Appends a number in decimal, with `-` if it is negative.
    fn push_signed(&mut self, n: i64)
        requires { length self.old ≤ 1052 }
        ensures text { self.new ≡ self.old ++ signed_decimal n }
        ensures length { length self.new ≤ length self.old + 20 }
    {
        self.push_bytes(Buffer::new().format(n).as_bytes());
    }

    /// Appends a word as `0x` and 16 hex digits.
    fn push_word(&mut self, word: u64)
        requires { length self.old ≤ 1054 }
        ensures text { self.new ≡ self.old ++ word_text word }
        ensures length { length self.new ≡ length self.old + 18 }
    {
        self.push_bytes(b"0x");
        self.push_hex(16, word);
    }

    /// Appends the status of a machine.
    fn push_status(&mut self, status: Status)
        requires { length self.old ≤ 1047 }
        ensures text { self.new ≡ self.old ++ status_text status }
        ensures length { length self.new ≤ length self.old + 25 }
    {
        match status {
            Status::Running => self.push_bytes(b"running"),
            Status::Exited(word) => {
                self.push_bytes(b"exited ");
                self.push_word(word);
            }
            Status::Fault(fault) => {
                self.push_bytes(b"fault ");
                self.push_bytes(fault.code().as_bytes());
            }
        }
    }

    /// Appends the line for a breakpoint that is set.
    #[tactic(auto, unfolding(crate::specs::Answers::break_text))]
    pub fn push_break(&mut self, slot: u64)
        requires { length self.old ≤ 200 }
        ensures { self.new ≡ self.old ++ break_text slot }
    {
        self.push_bytes(b"break ");
        self.push_number(slot);
        self.push_byte(b'\n');
    }

    /// Appends the line for a breakpoint that is cleared.
    #[tactic(auto, unfolding(crate::specs::Answers::clear_text))]
    pub fn push_clear(&mut self, slot: u64)
        requires { length self.old ≤ 200 }
        ensures { self.new ≡ self.old ++ clear_text slot }
    {
        self.push_bytes(b"clear ");
        self.push_number(slot);
        self.push_byte(b'\n');
    }

    /// Appends the start of a value's line, before its text.
    pub fn push_value(&mut self, h: u64)
        requires { length self.old ≤ 200 }
        ensures { self.new ≡ self.old ++ (codes "value " ++ (decimal h ++ codes " ")) }
    {
        self.push_bytes(b"value ");
        self.push_number(h);
        self.push_byte(b' ');
    }

    /// Appends the line for a `pc` outside the code.
    #[tactic(auto, unfolding(crate::specs::Listing::outside_line))]
    pub fn push_outside(&mut self, pc: i64)
        requires { length self.old ≤ 200 }
        ensures { self.new ≡ self.old ++ outside_line pc }
    {
        self.push_signed(pc);
        self.push_bytes(b" outside\n");
    }

    /// Appends the line of a move to step `k`.
    #[tactic(auto, unfolding(bpf_machine::specs::Text::move_line))]
    pub fn push_move(&mut self, k: u64, pc: i64, status: Status)
        requires { length self.old ≤ 179 }
        ensures { self.new ≡ self.old ++ move_line k pc status }
    {
        self.push_bytes(b"step ");
        self.push_number(k);
        self.push_bytes(b" pc ");
        self.push_signed(pc);
        self.push_bytes(b" ");
        self.push_status(status);
        self.push_byte(b'\n');
    }

    /// Appends a register's line.
    #[tactic(auto, unfolding(bpf_machine::specs::Text::register_line))]
    fn push_register(&mut self, number: u8, word: u64)
        requires number { number < 11 }
        requires room { length self.old ≤ 1031 }
        ensures text { self.new ≡ self.old ++ register_line number word }
        ensures length { length self.new ≤ length self.old + 41 }
    {
        self.push_bytes(b"r");
        self.push_number(u64::from(number));
        self.push_bytes(b" ");
        self.push_word(word);
        self.push_byte(b'\n');
    }

    /// Appends the lines of the eleven registers.
    #[tactic(auto, using(crate::proofs::Texts::registers), unfolding(bpf_machine::specs::Text::registers_text))]
    pub fn push_registers<E: Emulator>(&mut self, machine: &E)
        requires { self.old ≡ [] }
        ensures { self.new ≡ registers_text (E.state machine.now) }
    {
        for number in 0..11u8 {
            self.push_register(number, machine.register(register_numbered(number)));
        }
    }
}

/// The register with this number.
fn register_numbered(number: u8) -> Register
    requires { number < 11 }
    ensures { register_number result ≡ number }
{
    match Register::of(number) {
        Some(register) => register,
        None => unreachable!(),
    }
}

fn hex_digit(digit: u64) -> u8
    requires { digit < 16 }
    ensures { result ≡ hex_digit digit }
{
    if digit < 10 {
        48 + digit as u8
    } else {
        87 + digit as u8
    }
}
