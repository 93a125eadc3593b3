//! The line on standard error for a refusal.
ghost use Rattle.std.specs.Prelude.{◌≡◌, ◌≤◌, ◌+◌, ◌++◌, [], length, decimal, vec_capacity, vec_len};
ghost use Rattle.cli.specs.Refusals.{longest_line, policy_text, program_text, refusal_line, refusal_text, run_text};
ghost use Rattle.policy_glue.specs.CompileErrors.{compile_text, part_text, with_number};

use crate::refusal::Refusal;
use admission::{PolicyRefusal, RunError};
use assembler::AsmError;
use host::{FileError, OrderError};
use itoa::Buffer;
use policy_glue::{CompileError, ExpressionError, PartKind};
use smallvec::SmallVec;
use std::alloc::Global;
use std::marker::Model;
use streams::SessionError;

/// The length of the longest line of a refusal, in bytes.
pub const LONGEST_LINE: usize = 80;

/// The line for a refusal. Nothing is allocated. It is formatted by hand, because a `Display` may
/// fail, and every refusal must have its line.
pub fn refusal_line(alloc: Global, refusal: Refusal) -> RefusalLine
    ensures text { result ≡ refusal_line refusal }
    ensures length { length result ≤ longest_line }
{
    let mut line = RefusalLine::new(alloc);
    line.push_text("celbpf: ");
    line.push_refusal(refusal);
    line.push_text("\n");
    line
}

/// The text of a refusal, without the rest of its line. Nothing is allocated.
pub(crate) fn refusal_text(alloc: Global, refusal: Refusal) -> RefusalLine
    ensures { result ≡ refusal_text refusal }
{
    let mut text = RefusalLine::new(alloc);
    text.push_refusal(refusal);
    text
}

/// A line in a buffer of 80 bytes. The longest is 73 bytes: a refused validation, with 20 digits
/// each for its index and for the place in its text.
#[derive(Drop)]
pub struct RefusalLine {
    bytes: SmallVec<u8, 80>,
}

impl Model for RefusalLine {
    ghost use Rattle.std.specs.Prelude.{◌≡◌, ℕ, List};
    ghost use Rattle.std.specs.Coded.{codes};

    ghost Value = { List ℕ };

    ghost view = { λ l. l.bytes.items };

    ghost invariant = { λ l. l.bytes.capacity ≡ 80 };
}

impl RefusalLine {
    /// An empty line.
    fn new(alloc: Global) -> RefusalLine
        ensures { result ≡ [] }
    {
        RefusalLine {
            bytes: SmallVec::new(alloc),
        }
    }

    pub fn as_slice(&self) -> &[u8]
        ensures { result.now ≡ self.now }
    {
        self.bytes.as_slice()
    }

    /// The line in the given buffer, which has enough capacity.
    pub fn in_room(&self, room: Vec<u8>) -> Vec<u8>
        requires empty { room.items ≡ [] }
        requires len { vec_len room ≡ 0 }
        requires enough { length self.now ≤ vec_capacity room }
        ensures { result.items ≡ self.now }
    {
        let mut line = room;
        match line.extend_from_slice(self.as_slice()) {
            Ok(()) => line,
            Err(_) => unreachable!(),
        }
    }

    /// Appends the refusal's code and its details.
    fn push_refusal(&mut self, refusal: Refusal)
        requires { length self.old ≤ 8 }
        ensures text { self.new ≡ self.old ++ refusal_text refusal }
        ensures length { length self.new ≤ 76 }
    {
        match refusal {
            Refusal::Words => self.push_text(OrderError::InvalidArguments.code()),
            Refusal::Image(error) => self.push_text(error.code()),
            Refusal::File => self.push_text(FileError::Failed.code()),
            Refusal::Text => self.push_text("text"),
            Refusal::Program(error) => self.push_program(error),
            Refusal::Policy(error) => self.push_policy(error),
            Refusal::Run(error) => self.push_run(error),
            Refusal::Input => self.push_text(SessionError::ReadFailed.code()),
            Refusal::Output => self.push_text(SessionError::WriteFailed.code()),
            Refusal::Memory => self.push_text("memory"),
        }
    }

    /// Appends the code of a text's refusal, and the line number.
    #[tactic(auto, using(crate::proofs::Texts::program_said))]
    fn push_program(&mut self, error: AsmError)
        requires { length self.old ≤ 8 }
        ensures text { self.new ≡ self.old ++ program_text error }
        ensures length { length self.new ≤ 76 }
    {
        self.push_code(error.code(), " line ", error.line());
    }

    /// Appends the code of a run error.
    fn push_run(&mut self, error: RunError)
        requires { length self.old ≤ 8 }
        ensures text { self.new ≡ self.old ++ run_text error }
        ensures length { length self.new ≤ 76 }
    {
        self.push_text(error.code());
        if let RunError::PolicyRefused(refusal) = error {
            self.push_text(" ");
            self.push_policy(refusal);
        }
    }

    /// Appends the refusal of a policy.
    #[tactic(auto, using(crate::proofs::Texts::compile_said))]
    fn push_policy(&mut self, refusal: PolicyRefusal)
        requires { length self.old ≤ 11 }
        ensures text { self.new ≡ self.old ++ policy_text refusal }
        ensures length { length self.new ≤ 76 }
    {
        match refusal {
            PolicyRefusal::Unread(error) => self.push_text(error.code()),
            PolicyRefusal::Uncompiled(error) => self.push_compile_error(error),
            PolicyRefusal::Memory => self.push_text("memory"),
        }
    }

    /// Appends a compile error.
    fn push_compile_error(&mut self, error: CompileError)
        requires { length self.old ≤ 11 }
        ensures text { self.new ≡ self.old ++ compile_text error }
        ensures length { length self.new ≤ 76 }
    {
        self.push_text(error.code());
        if let CompileError::InvalidExpression(part, place, cause) = error {
            self.push_text(" ");
            self.push_part(part, place, cause);
        }
    }

    /// Appends the part of a policy that is refused, and the cause.
    fn push_part(&mut self, part: PartKind, place: usize, error: ExpressionError)
        requires { length self.old ≤ 14 }
        ensures text { self.new ≡ self.old ++ part_text part place error }
        ensures length { length self.new ≤ 76 }
    {
        self.push_text(part.word());
        self.push_numbered(" ", place);
        self.push_text(" ");
        self.push_code(error.code(), " at ", error.place());
    }

    /// Appends a code and, if there is a number, these words and the number.
    fn push_code(&mut self, code: &str, words: &str, number: Option<usize>)
        requires { length self.old + length code.now + length words.now ≤ 56 }
        ensures text { self.new ≡ self.old ++ with_number code.now words.now number }
        ensures length { length self.new ≤ length self.old + length code.now + length words.now + 20 }
    {
        self.push_text(code);
        if let Some(number) = number {
            self.push_numbered(words, number);
        }
    }

    /// Appends these words and a number.
    fn push_numbered(&mut self, words: &str, n: usize)
        requires { length self.old + length words.now ≤ 56 }
        ensures text { self.new ≡ self.old ++ (words.now ++ decimal n) }
        ensures length { length self.new ≤ length self.old + length words.now + 20 }
    {
        self.push_text(words);
        self.push_text(Buffer::new().format(n));
    }

    /// Appends a text.
    fn push_text(&mut self, text: &str)
        requires { length self.old + length text.now ≤ 80 }
        ensures text { self.new ≡ self.old ++ text.now }
        ensures length { length self.new ≡ length self.old + length text.now }
    {
        match self.bytes.extend_from_slice(text.as_bytes()) {
            Ok(()) => {}
            Err(_) => unreachable!(),
        }
    }
}
