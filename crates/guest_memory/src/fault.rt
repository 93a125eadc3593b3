//! Why a program is stopped.
ghost use Rattle.std.specs.Prelude.{◌≡◌, length, Some};
ghost use Rattle.guest_memory.specs.ErrorCodes.{fault_code};

use std::fmt;

/// Why a program is stopped: the instruction at `pc` cannot be executed. A fault changes nothing but the status.
#[derive(Clone, Copy, Debug, PartialEq, Eq)]
pub enum Fault {
    /// `pc` is outside the code, for example after a jump past its end (RFC 9669, section 4.3).
    F1,
    /// The slots at `pc` are not a valid encoding of an instruction (RFC 9669, section 3).
    F2,
    /// A load, store or atomic instruction whose bytes are not all in one region, or a helper call with a range that
    /// is not completely in the constants (RFC 9669, sections 5 and 4.3.1).
    F3,
    /// A store or atomic instruction whose bytes are all in the constants, which are read-only (RFC 9669, section 5).
    F4,
    /// A call of a helper with an unknown number (RFC 9669, section 4.3.1).
    F5,
    /// A call of a helper with an argument that must be the reference of a value
    /// and is not (RFC 9669, section 4.3.1).
    F6,
    /// A call of a local function that would open a ninth frame (RFC 9669, section 4.3.2).
    F7,
    /// A call of a helper that would raise the charge above 16,777,216, or make a list or map
    /// deeper than 255 (RFC 9669, section 4.3.1).
    F8,
    /// An arithmetic or load instruction whose destination is R10, the frame pointer, or an atomic instruction that
    /// would write the old word to it (RFC 9669, sections 4.1, 4.2 and 5).
    F9,
}

impl Fault {
    /// The fault's code: `F1` to `F9`.
    pub fn code(&self) -> &'static str
        ensures text { result.now ≡ fault_code self.now }
        ensures length { length result.now ≡ 2 }
    {
        match self {
            Fault::F1 => "F1",
            Fault::F2 => "F2",
            Fault::F3 => "F3",
            Fault::F4 => "F4",
            Fault::F5 => "F5",
            Fault::F6 => "F6",
            Fault::F7 => "F7",
            Fault::F8 => "F8",
            Fault::F9 => "F9",
        }
    }
}

impl fmt::Display for Fault {
    ghost output = { λ f. Some (fault_code f) };

    fn fmt<W: fmt::Write>(&self, f: &mut fmt::Formatter<W>) -> fmt::Result {
        f.write_str(self.code())
    }
}
