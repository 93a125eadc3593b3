//! The fields of an image's file, and the causes for which a file is refused.

ghost use Rattle.std.specs.Prelude.{◌≡◌, ◌≤◌, ◌+◌, ◌*◌, ◌||◌, if◌then◌else◌, length, nat_eq, nat_lt, not};
ghost use Rattle.loader.specs.declared.version.Version.TheVariants.{First, Second};
ghost use Rattle.byteorder.specs.Endian.{little_bytes};
ghost use Rattle.loader.specs.Format as format;

use crate::limits::CONSTANTS_LIMIT;
use crate::version::Version;
use byteorder::{ByteOrder, LittleEndian};
use insn_codec::SLOT_LIMIT;

/// The length of the head, the bytes before the code.
pub const HEAD: usize = 16;

/// The number of slots that the file states.
#[tactic(auto, unfolding(crate::specs::Format::slots_in))]
pub fn slots_in(file: &[u8]) -> u32
    requires { 16 ≤ length file.now }
    ensures { result ≡ format.slots_in file.now }
{
    LittleEndian::read_u32(&file[8..])
}

/// The number of bytes of constants that the file states.
#[tactic(auto, unfolding(crate::specs::Format::constants_in))]
pub fn constants_in(file: &[u8]) -> u32
    requires { 16 ≤ length file.now }
    ensures { result ≡ format.constants_in file.now }
{
    LittleEndian::read_u32(&file[12..])
}

/// Whether no image has this many slots.
pub fn is_bad_count(slots: u64) -> bool
    ensures { result ≡ format.is_bad_count slots }
{
    slots == 0 || slots > u64::from(SLOT_LIMIT)
}

/// Whether no image has this many bytes of constants.
pub fn is_too_long(constants: u64) -> bool
    ensures { result ≡ format.is_too_long constants }
{
    constants > CONSTANTS_LIMIT
}

/// Whether the file is shorter than a head.
pub fn is_too_short(file: &[u8]) -> bool
    ensures { result ≡ nat_lt (length file.now) 16 }
{
    file.len() < HEAD
}

/// Whether the file begins with the first bytes of this version.
fn has_magic(file: &[u8], version: Version) -> bool
    requires { 16 ≤ length file.now }
    ensures { result ≡ format.has_magic version file.now }
{
    &file[..8] == version.magic().as_slice()
}

/// Whether the file begins with the first bytes of neither version.
pub fn has_other_magic(file: &[u8]) -> bool
    requires { 16 ≤ length file.now }
    ensures { result ≡ not (format.has_magic First file.now || format.has_magic Second file.now) }
{
    !(has_magic(file, Version::First) || has_magic(file, Version::Second))
}

/// The version of a file that begins with the first bytes of one.
pub fn version_in(file: &[u8]) -> Version
    requires { 16 ≤ length file.now }
    ensures { result ≡ (if format.has_magic First file.now then First else Second) }
{
    if has_magic(file, Version::First) {
        Version::First
    } else {
        Version::Second
    }
}

/// Whether the file states a number of slots that no image has.
pub fn has_bad_slots(file: &[u8]) -> bool
    requires { 16 ≤ length file.now }
    ensures { result ≡ format.is_bad_count (format.slots_in file.now) }
{
    is_bad_count(u64::from(slots_in(file)))
}

/// Whether the file states more constants than an image may have.
pub fn has_long_constants(file: &[u8]) -> bool
    requires { 16 ≤ length file.now }
    ensures { result ≡ format.is_too_long (format.constants_in file.now) }
{
    is_too_long(u64::from(constants_in(file)))
}

/// Whether the length of the file differs from the one that its head states.
pub fn has_other_length(file: &[u8]) -> bool
    requires { 16 ≤ length file.now }
    ensures { result ≡ not (nat_eq (length file.now) (16 + 8 * format.slots_in file.now + format.constants_in file.now)) }
{
    let stated = HEAD as u64 + 8 * u64::from(slots_in(file)) + u64::from(constants_in(file));
    file.len() as u64 != stated
}

/// The four bytes of a number in little-endian order.
pub fn number_bytes(number: u32) -> [u8; 4]
    ensures { result ≡ little_bytes 4 number }
{
    let mut bytes = [0; 4];
    LittleEndian::write_u32(&mut bytes, number);
    bytes
}
