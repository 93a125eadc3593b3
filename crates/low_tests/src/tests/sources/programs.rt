//! Programs and their slots.
use super::{around, slots_of};
use std::alloc::Global;
use std::test::Fail;

/// Programs with the bytes of their slots, each in storage order.
#[rattlefmt::skip]
const PROGRAMS: [(&str, &[u64]); 19] = [
    ("", &[]),
    ("end:", &[]),
    ("mov64 r0, 1\nja end\nmov64 r0, 2\nend:\nexit\n", &[0xb700_0000_0100_0000, 0x0500_0100_0000_0000, 0xb700_0000_0200_0000, 0x9500_0000_0000_0000]),
    ("a:\nja a", &[0x0500_ffff_0000_0000]),
    ("ja a\na:", &[0x0500_0000_0000_0000]),
    ("a:\nb:\nja32 a\nja32 b", &[0x0600_0000_ffff_ffff, 0x0600_0000_feff_ffff]),
    ("exit\na:\nexit\ncall_local a", &[0x9500_0000_0000_0000, 0x9500_0000_0000_0000, 0x8510_0000_feff_ffff]),
    ("jslt32 r1, -1, a_1\nexit\na_1:\n", &[0xc601_0100_ffff_ffff, 0x9500_0000_0000_0000]),
    ("jge64 r1, r2, _\n_:", &[0x3d21_0000_0000_0000]),
    ("ja end\nlddw r1, 0x91223344556677ff\nend:", &[0x0500_0200_0000_0000, 0x1801_0000_ff77_6655, 0x0000_0000_4433_2291]),
    (".slot 0x0123456789abcdef\n", &[0x0123_4567_89ab_cdef]),
    ("exit:\nexit\nja:\nja exit", &[0x9500_0000_0000_0000, 0x0500_feff_0000_0000]),
    ("A:\na:\nja A", &[0x0500_ffff_0000_0000]),
    ("ja32 _\n_:", &[0x0600_0000_0000_0000]),
    ("call_local R0\nR0:", &[0x8510_0000_0000_0000]),
    ("_9z:\nja _9z\nb_1:", &[0x0500_ffff_0000_0000]),
    (".slot 0xffffffffffffffff", &[0xffff_ffff_ffff_ffff]),
    // Slots of older listings keep their bytes, even if they encode an instruction now.
    (".slot 0xdb1af8ff01000000\n.slot 0xdb1af8fff0000000\n", &[0xdb1a_f8ff_0100_0000, 0xdb1a_f8ff_f000_0000]),
    ("lddw r3, 0x0123456789abcdef", &[0x1803_0000_efcd_ab89, 0x0000_0000_6745_2301]),
];

/// Lines with this many lines `exit` between them, the index of a slot and that slot: 16
/// bits hold offsets from -32768 to 32767.
#[rattlefmt::skip]
const FAR: [(&str, usize, &str, usize, u64); 8] = [
    ("ja away\n", 32_767, "away:", 0, 0x0500_ff7f_0000_0000),
    ("jeq64 r1, r2, away\n", 32_767, "away:", 0, 0x1d21_ff7f_0000_0000),
    ("ja32 away\n", 32_768, "away:", 0, 0x0600_0000_0080_0000),
    ("call_local away\n", 65_535, "away:", 0, 0x8510_0000_ffff_0000),
    ("back:\n", 32_767, "ja back", 32_767, 0x0500_0080_0000_0000),
    ("back:\n", 65_535, "ja32 back", 65_535, 0x0600_0000_0000_ffff),
    ("", 65_536, "end:", 65_535, 0x9500_0000_0000_0000),
    ("", 65_534, "lddw r0, 0x0000000000000005", 65_535, 0),
];

/// Whether the text's code has these slots.
fn has_slots(alloc: Global, text: &str, slots: &[u64]) -> Result<bool, Fail> {
    Ok(slots_of(alloc, text)?.as_slice() == slots)
}

#[test]
fn programs_have_their_slots(rt: HostRuntime) -> Result<(), Fail> {
    for (text, slots) in &PROGRAMS {
        assert!(rt; has_slots(rt.alloc(), text, slots)?, "{text}");
    }
    Ok(())
}

/// The slot at this index in the code of two lines with this many lines `exit` between them.
fn slot_at(
    alloc: Global,
    first: &str,
    exits: usize,
    last: &str,
    index: usize,
) -> Result<Option<u64>, Fail> {
    let text = around(alloc, first, exits, last)?;
    let slots = slots_of(alloc, text.as_str())?;
    Ok(slots.as_slice().get(index).copied())
}

#[test]
fn jumps_reach_their_labels(rt: HostRuntime) -> Result<(), Fail> {
    for (first, exits, last, index, slot) in &FAR {
        let found = slot_at(rt.alloc(), first, *exits, last, *index)?;
        assert!(rt; found == Some(*slot), "{first}{last}");
    }
    Ok(())
}
