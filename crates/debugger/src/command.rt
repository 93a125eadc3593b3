//! Parsing of command lines.
ghost use Rattle.std.specs.Prelude.{◌≡◌, ◌≤◌, ◌<◌, ◌^◌, ◌-◌, ◌+◌, ◌*◌, ◌&&◌, ℕ, true, drop, length, min, nat_eq, nat_lt, option_map, slice_index};
ghost use Rattle.std.specs.Str.{bytes_eq};
ghost use Rattle.debugger.specs.Commands.{begins_with, capped, capped_command, capped_number, command_of, form_of, hex_value, is_digit, is_hex_digit, move_form_of, number_of, numbered_form_of, read_address, read_digits, shown_form_of};

/// The maximum number of bytes of a command line.
const LINE_LIMIT: usize = 64;

/// The command of a line. Numbers are capped at the greatest of 64 bits, which is outside every range.
#[derive(Clone, Copy, Debug, PartialEq, Eq)]
pub enum Command {
    /// `b N`: sets a breakpoint at this slot.
    SetBreakpoint(u64),
    /// `d N`: clears the breakpoint at this slot.
    ClearBreakpoint(u64),
    /// `s N`: goes N steps forward.
    Forward(u64),
    /// `rs N`: goes N steps back.
    Back(u64),
    /// `g K`: goes to step K.
    Go(u64),
    /// `c N`: continues to the next stop, at most N steps.
    Continue(u64),
    /// `rc`: goes back to the last breakpoint.
    ReverseContinue,
    /// `r`: shows the registers.
    Registers,
    /// `v H`: shows the value at this reference.
    ValueAt(u64),
    /// `m A L`: shows L bytes of memory at this address.
    MemoryAt(u64, u64),
    /// `f`: shows the records of the calls that have not returned.
    Frames,
    /// `l`: lists the code from `pc` on.
    Listing,
    /// `w`: shows the words of the verdict.
    Verdict,
    /// `q`: ends the session.
    Quit,
    /// A line that is not a command.
    Unknown,
}

impl Command {
    /// The command of a line.
    #[tactic(auto, unfolding(crate::specs::Commands::command_of))]
    pub fn of(line: &[u8]) -> Command
        ensures { result ≡ capped_command (command_of line.now) }
    {
        if line.len() <= LINE_LIMIT {
            form(line)
        } else {
            Command::Unknown
        }
    }
}

/// The command of a line of any length.
#[tactic(auto, unfolding(crate::specs::Commands::form_of))]
fn form(line: &[u8]) -> Command
    ensures { result ≡ capped_command (form_of line.now) }
{
    if is_bytes(line, b"q") {
        return Command::Quit;
    }
    if is_bytes(line, b"r") {
        return Command::Registers;
    }
    if is_bytes(line, b"rc") {
        return Command::ReverseContinue;
    }
    if is_bytes(line, b"l") {
        return Command::Listing;
    }
    if is_bytes(line, b"f") {
        return Command::Frames;
    }
    if is_bytes(line, b"w") {
        return Command::Verdict;
    }
    numbered_form(line)
}

/// The command of a word and a number.
#[tactic(auto, unfolding(crate::specs::Commands::numbered_form_of))]
fn numbered_form(line: &[u8]) -> Command
    ensures { result ≡ capped_command (numbered_form_of line.now) }
{
    if begins_with(line, b"b ") {
        return number(after(line, 2)).map_or(Command::Unknown, Command::SetBreakpoint);
    }
    if begins_with(line, b"d ") {
        return number(after(line, 2)).map_or(Command::Unknown, Command::ClearBreakpoint);
    }
    move_form(line)
}

/// The move of a word and a number.
#[tactic(auto, unfolding(crate::specs::Commands::move_form_of))]
fn move_form(line: &[u8]) -> Command
    ensures { result ≡ capped_command (move_form_of line.now) }
{
    if begins_with(line, b"s ") {
        return number(after(line, 2)).map_or(Command::Unknown, Command::Forward);
    }
    if begins_with(line, b"rs ") {
        return number(after(line, 3)).map_or(Command::Unknown, Command::Back);
    }
    if begins_with(line, b"g ") {
        return number(after(line, 2)).map_or(Command::Unknown, Command::Go);
    }
    if begins_with(line, b"c ") {
        return number(after(line, 2)).map_or(Command::Unknown, Command::Continue);
    }
    shown_form(line)
}

/// The command that shows a part of the state, by its number or its address.
#[tactic(auto, unfolding(crate::specs::Commands::shown_form_of))]
fn shown_form(line: &[u8]) -> Command
    ensures { result ≡ capped_command (shown_form_of line.now) }
{
    if begins_with(line, b"v ") {
        return number(after(line, 2)).map_or(Command::Unknown, Command::ValueAt);
    }
    if begins_with(line, b"m 0x") {
        return address(0, 0, after(line, 4));
    }
    Command::Unknown
}

/// The command `m`, after `digits` hex digits of its address with the value `so_far`; `line` is the rest of the line.
#[tactic(auto, using(crate::proofs::Addresses::power_fits))]
fn address(digits: u32, so_far: u64, line: &[u8]) -> Command
    requires digits { digits ≤ 16 }
    requires fits { so_far < 16 ^ digits }
    ensures { result ≡ capped_command (read_address digits so_far line.now) }
{
    match line {
        [] => Command::Unknown,
        [first, rest @ ..] => {
            if *first == b' ' && digits > 0 {
                return match number(rest) {
                    Some(n) => Command::MemoryAt(so_far, n),
                    None => Command::Unknown,
                };
            }
            if is_hex_digit(*first) && digits < 16 {
                return address(digits + 1, so_far * 16 + hex_value(*first), rest);
            }
            Command::Unknown
        }
    }
}

fn is_hex_digit(c: u8) -> bool
    ensures { result ≡ is_hex_digit c }
{
    is_digit(c) || (97 <= c && c <= 102)
}

/// The value of a hex digit.
fn hex_value(c: u8) -> u64
    requires { is_hex_digit c ≡ true }
    ensures value { result ≡ hex_value c }
    ensures digit { result < 16 }
{
    if is_digit(c) {
        u64::from(c - 48)
    } else {
        u64::from(c - 87)
    }
}

fn is_bytes(line: &[u8], bytes: &[u8]) -> bool
    ensures { result ≡ bytes_eq line.now bytes.now }
{
    line == bytes
}

fn begins_with(line: &[u8], front: &[u8]) -> bool
    ensures { result ≡ begins_with front.now line.now }
{
    line.starts_with(front)
}

/// The bytes of a line after the first n.
fn after(line: &[u8], n: usize) -> &[u8]
    ensures { result.now ≡ drop n line.now }
{
    if n <= line.len() { &line[n..] } else { &[] }
}

/// The number that a line's last part denotes, if it is one.
#[tactic(auto, unfolding(crate::specs::Commands::number_of))]
fn number(digits: &[u8]) -> Option<u64>
    ensures { result ≡ capped_number (number_of digits.now) }
{
    if digits.is_empty() || leads_with_zero(digits) {
        return None;
    }
    value(0, digits)
}

/// Whether these are several digits of which the first is zero.
fn leads_with_zero(digits: &[u8]) -> bool
    ensures { result ≡ (nat_lt 1 (length digits.now) && nat_eq (slice_index digits.now 0) 48) }
{
    digits.len() > 1 && digits[0] == b'0'
}

/// The number that continues `n` with these digits.
fn value(n: u64, digits: &[u8]) -> Option<u64>
    ensures { (m : ℕ) → n ≡ capped m → result ≡ capped_number (read_digits m digits.now) }
{
    match digits {
        [] => Some(n),
        [first, rest @ ..] => {
            if is_digit(*first) {
                value(with_digit(n, *first), rest)
            } else {
                None
            }
        }
    }
}

fn is_digit(c: u8) -> bool
    ensures { result ≡ is_digit c }
{
    48 <= c && c <= 57
}

/// The number continued with one more digit.
fn with_digit(n: u64, c: u8) -> u64
    requires { is_digit c ≡ true }
    ensures { (m : ℕ) → n ≡ capped m → result ≡ capped (m * 10 + (c - 48)) }
{
    n.saturating_mul(10).saturating_add(u64::from(c - 48))
}
