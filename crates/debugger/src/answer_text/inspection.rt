//! The text of memory and of frames.
ghost use Rattle.std.specs.Prelude.{◌≡◌, ◌≤◌, ◌+◌, ◌*◌, ◌/◌, ℕ, [], ◌++◌, length, codes};
ghost use Rattle.bpf_machine.specs.Text.{hex_digits, word_text};
ghost use Rattle.debugger.specs.Inspection.{digits_of_bytes, frame_line, frame_lines, frames_text, memory_line, memory_lines, saved_text};

use super::AnswerText;
use bpf_machine::Frame;

impl AnswerText {
    /// Appends the lines of these bytes, which begin at this address.
    pub fn push_memory(&mut self, address: u64, bytes: &[u8])
        requires { length self.old + 67 * ((length bytes.now + 15) / 16) ≤ 1072 }
        ensures { (count : ℕ) → length bytes.now ≤ 16 * count → self.new ≡ self.old ++ memory_lines count address bytes.now }
    {
        if bytes.is_empty() {
            return;
        }
        if bytes.len() <= 16 {
            self.push_memory_line(address, bytes);
            return;
        }
        let (line, rest) = bytes.split_at(16);
        self.push_memory_line(address, line);
        self.push_memory(address.wrapping_add(16), rest);
    }

    /// Appends a line of up to 16 bytes, which begin at this address.
    #[tactic(auto, unfolding(crate::specs::Inspection::memory_line))]
    fn push_memory_line(&mut self, address: u64, bytes: &[u8])
        requires few { length bytes.now ≤ 16 }
        requires room { length self.old + 67 ≤ 1072 }
        ensures text { self.new ≡ self.old ++ memory_line address bytes.now }
        ensures length { length self.new ≤ length self.old + 67 }
    {
        self.push_word(address);
        self.push_digits(bytes);
        self.push_byte(b'\n');
    }

    /// Appends each of these bytes as a space and two hex digits.
    #[tactic(auto, unfolding(crate::specs::Inspection::digits_of_bytes))]
    fn push_digits(&mut self, bytes: &[u8])
        requires { length self.old + 3 * length bytes.now ≤ 1072 }
        ensures text { self.new ≡ self.old ++ digits_of_bytes bytes.now }
        ensures length { length self.new ≡ length self.old + 3 * length bytes.now }
    {
        match bytes {
            [] => {}
            [first, rest @ ..] => {
                self.push_digit_pair(*first);
                self.push_digits(rest);
            }
        }
    }

    /// Appends a byte as a space and two hex digits.
    fn push_digit_pair(&mut self, byte: u8)
        requires { length self.old + 3 ≤ 1072 }
        ensures text { self.new ≡ self.old ++ (codes " " ++ hex_digits 2 byte) }
        ensures length { length self.new ≡ length self.old + 3 }
    {
        self.push_bytes(b" ");
        self.push_hex(2, u64::from(byte));
    }

    /// Appends the number of records, the newest of which is the last, and their lines.
    #[tactic(auto, unfolding(crate::specs::Inspection::frames_text))]
    pub fn push_frames(&mut self, records: &[Frame])
        requires empty { self.old ≡ [] }
        requires few { length records.now ≤ 7 }
        ensures { self.new ≡ frames_text records.now }
    {
        self.push_bytes(b"depth ");
        self.push_number(records.len() as u64);
        self.push_byte(b'\n');
        self.push_frame_lines(records);
    }

    /// Appends the lines of records, the last record first.
    #[tactic(auto, unfolding(crate::specs::Inspection::frame_lines))]
    fn push_frame_lines(&mut self, records: &[Frame])
        requires { length self.old + 117 * length records.now ≤ 1072 }
        ensures text { self.new ≡ self.old ++ frame_lines records.now }
        ensures length { length self.new ≤ length self.old + 117 * length records.now }
    {
        match records {
            [] => {}
            [first, newer @ ..] => {
                self.push_frame_lines(newer);
                self.push_frame(first);
            }
        }
    }

    /// Appends the line of a record.
    #[tactic(auto, unfolding(crate::specs::Inspection::frame_line))]
    fn push_frame(&mut self, frame: &Frame)
        requires { length self.old + 117 ≤ 1072 }
        ensures text { self.new ≡ self.old ++ frame_line frame.now }
        ensures length { length self.new ≤ length self.old + 117 }
    {
        self.push_bytes(b"return ");
        self.push_signed(frame.return_pc);
        self.push_saved(frame);
        self.push_byte(b'\n');
    }

    /// Appends the registers of a record.
    #[tactic(auto, unfolding(crate::specs::Inspection::saved_text))]
    fn push_saved(&mut self, frame: &Frame)
        requires { length self.old + 88 ≤ 1072 }
        ensures text { self.new ≡ self.old ++ saved_text frame.now }
        ensures length { length self.new ≡ length self.old + 88 }
    {
        self.push_named(b" r6 ", frame.r6);
        self.push_named(b" r7 ", frame.r7);
        self.push_named(b" r8 ", frame.r8);
        self.push_named(b" r9 ", frame.r9);
    }

    /// Appends a name and a word.
    fn push_named(&mut self, name: &[u8], word: u64)
        requires name { length name.now ≡ 4 }
        requires room { length self.old + 22 ≤ 1072 }
        ensures text { self.new ≡ self.old ++ (name.now ++ word_text word) }
        ensures length { length self.new ≡ length self.old + 22 }
    {
        self.push_bytes(name);
        self.push_word(word);
    }
}
