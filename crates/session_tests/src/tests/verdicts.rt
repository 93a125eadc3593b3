//! Sessions with programs that write to the verdict region.

use super::talking::says;
use super::{assert_rows, null_table};
use loader::Image;
use std::alloc::{AllocError, Global};

/// `r1 = 0x300000000`; the words at 0, 8 and 16 become 3, 1 and 1, the byte at 17 becomes 1, the
/// words at 520, 528, 1032 and 1040 become 2, 9, -1 and 7; `exit`.
const TOLD: &[u8] =
    b"\x18\x01\0\0\0\0\0\0\0\0\0\0\x03\0\0\0\x7a\x01\0\0\x03\0\0\0\x7a\x01\x08\0\x01\0\0\0\x7a\x01\x10\0\x01\0\0\0\x72\x01\x11\0\x01\0\0\0\x7a\x01\x08\x02\x02\0\0\0\x7a\x01\x10\x02\x09\0\0\0\x7a\x01\x08\x04\xff\xff\xff\xff\x7a\x01\x10\x04\x07\0\0\0\x95\0\0\0\0\0\0\0";

/// `r1 = 0x300000000`, `r2 = -1` and `r3 = 0x300000800`; `[r1] = r2` and `r1 += 8` until `r1` is
/// `r3`; `exit`.
const FILLS: &[u8] =
    b"\x18\x01\0\0\0\0\0\0\0\0\0\0\x03\0\0\0\xb7\x02\0\0\xff\xff\xff\xff\x18\x03\0\0\0\x08\0\0\0\0\0\0\x03\0\0\0\x7b\x21\0\0\0\0\0\0\x07\x01\0\0\x08\0\0\0\x5d\x31\xfd\xff\0\0\0\0\x95\0\0\0\0\0\0\0";

/// Versions of the image of `TOLD`, and the text that is written.
#[rattlefmt::skip]
const ROWS: [(u8, &[u8]); 2] = [
    (1, b"verdict 0 0\nstep 10 pc 10 exited 0x0000000000000000\nverdict 3 1\nvalidation 0 257\nvalidation 63 2\nstep 3 pc 4 running\nverdict 3 1\n? what\n"),
    (
        2,
        b"verdict 0 0\nstep 10 pc 10 exited 0x0000000000000000\nverdict 3 1\nvalidation 0 257\nvalidation 63 2\nmessage 0 9\nmessage 63 18446744073709551615\nstep 3 pc 4 running\nverdict 3 1\n? what\n",
    ),
];

/// The image of this version with this code.
fn image(alloc: Global, version: u8, code: &[u8]) -> Option<Image> {
    let code = Vec::from_slice(alloc, code).ok()?;
    if version == 2 {
        Image::new_2(code, Vec::new(alloc)).ok()
    } else {
        Image::new(code, Vec::new(alloc)).ok()
    }
}

fn right_versions(alloc: Global) -> usize {
    for (place, &(version, said)) in ROWS.iter().enumerate() {
        let input = b"w\nc 100\nw\ng 3\nw\nw 1\n";
        if !says(
            alloc,
            image(alloc, version, TOLD),
            null_table(alloc),
            input,
            said,
        ) {
            return place;
        }
    }
    2
}

#[test]
fn shows_words_of_each_version(rt: HostRuntime) {
    assert_rows(&rt, right_versions(rt.alloc()), 2);
}

/// The greatest word.
const MOST: &str = "18446744073709551615";

/// The numbers of words that a verdict has.
#[rattlefmt::skip]
const PLACES: [&str; 64] = [
    "0", "1", "2", "3", "4", "5", "6", "7", "8", "9", "10", "11", "12", "13", "14", "15",
    "16", "17", "18", "19", "20", "21", "22", "23", "24", "25", "26", "27", "28", "29", "30", "31",
    "32", "33", "34", "35", "36", "37", "38", "39", "40", "41", "42", "43", "44", "45", "46", "47",
    "48", "49", "50", "51", "52", "53", "54", "55", "56", "57", "58", "59", "60", "61", "62", "63",
];

/// Appends these texts.
fn push_all(text: &mut String, parts: &[&str]) -> Result<(), AllocError> {
    for part in parts {
        text.push_str(part)?;
    }
    Ok(())
}

/// Appends a line for each word of this name.
fn push_words(text: &mut String, name: &str) -> Result<(), AllocError> {
    for place in &PLACES {
        push_all(text, &[name, " ", place, " ", MOST, "\n"])?;
    }
    Ok(())
}

/// Appends the longest reply, after the line of its move.
fn push_longest(text: &mut String) -> Result<(), AllocError> {
    let moved = "step 10000 pc 8 exited 0x0000000000000000\n";
    push_all(text, &[moved, "verdict ", MOST, " ", MOST, "\n"])?;
    push_words(text, "validation")?;
    push_words(text, "message")
}

/// Whether all words are shown.
fn shows_all(alloc: Global) -> Result<bool, AllocError> {
    let mut said = String::new(alloc);
    push_longest(&mut said)?;
    let full = image(alloc, 2, FILLS);
    Ok(says(
        alloc,
        full,
        null_table(alloc),
        b"g 10000\nw\n",
        said.as_bytes(),
    ))
}

#[test]
fn shows_all_words(rt: HostRuntime) {
    assert!(rt; shows_all(rt.alloc()).unwrap_or(false));
}
