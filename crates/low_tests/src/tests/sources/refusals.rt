//! Texts that are not programs.
use super::{around, is_refused};
use std::test::Fail;

/// Lines without a valid form.
const FORMLESS: [&str; 62] = [
    ":",
    "9a:",
    "a b:",
    "a-b:",
    " a:",
    "a: ",
    "a::",
    "a:b",
    "ä:",
    "\n",
    " exit",
    "exit ",
    "exit\r",
    "Exit",
    "neg64",
    "neg64 ",
    "neg64 r1, r2",
    "mov r0, 5",
    "mov64 r0,5",
    "mov64  r0, 5",
    "mov64 r0 , 5",
    "mov64 r0, 5 ",
    "mov64 r0, 5, 6",
    "mov64 r11, 1",
    "mov64 r00, 1",
    "mov64 r0, +1",
    "mov64 r0, 01",
    "mov64 r0, -0",
    "mov64 r0, 0x1",
    "mov64 r0, ",
    "mov64 r11, 99999999999",
    "mov64 r0, 000000000000000000000000000000000000000000000000000000000000000000001",
    "ja 1",
    "ja +01",
    "ja -0",
    "ja +",
    "ja a b",
    "jeq64 r1, r2",
    "jeq64 r1, r2, +1, +2",
    "jeq64 r1, 99999999999, 1",
    "call +1",
    "call a",
    "stb [r1], 0",
    "stb [r1+1, 0",
    "stb r1+1], 0",
    "stb [r1 +1], 0",
    "stb [r1+-1], 0",
    "stb [r1+32768], r2",
    "stxb [r1+32768], 5",
    "ldxb r1, [+1]",
    "ldxsdw r1, [r2+1]",
    "lddw r0, 5",
    "lddw r0, 0x0000000G00000000",
    "lddw r0, 0x0000000A00000000",
    "atomic_add16 [r1+0], r2",
    "atomic_sub64 [r1+0], r2",
    "atomic_fetch_xchg64 [r1+0], r2",
    "atomic_add64 [r1], r2",
    "atomic_add64 [r1+0], 5",
    "atomic_add64 r1, [r2+0]",
    ".slot 0x12",
    ".slot 0x00000000000000001",
];

/// Lines with a number out of range.
const OUT_OF_RANGE: [&str; 16] = [
    "mov64 r0, 2147483648",
    "mov64 r0, -2147483649",
    "mov64 r0, 100000000000000000000000000000000000000000000000000000000000000000000",
    "ja +32768",
    "ja -32769",
    "ja32 +2147483648",
    "call 2147483648",
    "call_local -2147483649",
    "jeq64 r1, 2147483648, a",
    "jeq64 r1, 2147483648, +1",
    "jeq64 r1, r2, +32768",
    "ldxb r1, [r2-32769]",
    "stb [r1+32768], 0",
    "stb [r1+1], 2147483648",
    "stxb [r1+32768], r2",
    "atomic_add64 [r1-32769], r2",
];

/// Texts with the code and the line of the first error.
const REASONS: [(&str, &str, usize); 18] = [
    ("\n", "A1", 1),
    ("exit\n\nexit\n", "A1", 2),
    ("exit\r\n", "A1", 1),
    (" exit", "A1", 1),
    ("mov64 r0,5", "A1", 1),
    ("mov64 r0, 05", "A1", 1),
    ("mov64 r11, 2147483648", "A1", 1),
    ("1a:", "A1", 1),
    ("mov64 r0, 2147483648", "A2", 1),
    ("exit\nja +32768", "A2", 2),
    ("ja away", "A3", 1),
    ("a:\nja A", "A3", 2),
    ("a:\na:", "A4", 2),
    ("a:\nexit\nja a\na:\nexit", "A4", 4),
    ("ja away\nmov64 r0,5", "A1", 2),
    ("ja away\na:\na:\n", "A4", 3),
    ("ja a\nja b\na:", "A3", 2),
    ("a:\nmov64 r0, 2147483648\na:", "A2", 2),
];

/// Lines with this many lines `exit` between them, with the code and the line of the error.
const FAR: [(&str, usize, &str, &str, usize); 7] = [
    ("ja away\n", 32_768, "away:", "A5", 1),
    ("jeq64 r1, r2, away\n", 32_768, "away:", "A5", 1),
    ("back:\n", 32_768, "ja back", "A5", 32_770),
    ("", 65_537, "", "A6", 65_537),
    ("a:\n", 65_536, "exit\nmov64 r0,5", "A6", 65_538),
    ("a:\n", 65_536, "a:", "A4", 65_538),
    ("", 65_535, "lddw r0, 0x0000000000000005", "A6", 65_536),
];

#[test]
fn lines_have_no_form(rt: HostRuntime) {
    for line in &FORMLESS {
        assert!(rt; is_refused(rt.alloc(), line, "A1", 1), "{line}");
    }
}

#[test]
fn numbers_are_out_of_range(rt: HostRuntime) {
    for line in &OUT_OF_RANGE {
        assert!(rt; is_refused(rt.alloc(), line, "A2", 1), "{line}");
    }
}

#[test]
fn the_first_reason_is_told(rt: HostRuntime) {
    for (text, reason, line) in &REASONS {
        assert!(rt; is_refused(rt.alloc(), text, reason, *line), "{text}");
    }
}

#[test]
fn far_lines_are_told(rt: HostRuntime) -> Result<(), Fail> {
    for (first, exits, last, reason, line) in &FAR {
        let text = around(rt.alloc(), first, *exits, last)?;
        assert!(rt;
            is_refused(rt.alloc(), text.as_str(), reason, *line),
            "{first}{last}"
        );
    }
    Ok(())
}
