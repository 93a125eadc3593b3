//! Images run by their bytes.

use bpf_machine::Status;
use loader::LoadError;
use review_runner::run_image;
use std::alloc::{AllocError, Global};
use std::test::Fail;

/// The file of an image with this code and these constants.
fn file(alloc: Global, code: &[u8], constants: &[u8]) -> Result<Vec<u8>, AllocError> {
    let mut file = Vec::from_slice(alloc, b"CELBPF01")?;
    file.push((code.len() / 8 % 256) as u8)?;
    file.extend_from_slice(&[0; 3])?;
    file.push((constants.len() % 256) as u8)?;
    file.extend_from_slice(&[0; 3])?;
    file.extend_from_slice(code)?;
    file.extend_from_slice(constants)?;
    Ok(file)
}

/// Code with constants, and the last line that its run prints.
#[rattlefmt::skip]
const CALLS: [(&[u8], &[u8], &[u8]); 6] = [
    // The kind of the bool at reference 3, of no value at 9, and an unknown helper.
    (b"\xb7\x01\0\0\x03\0\0\0\x85\0\0\0\x01\0\0\0\x95\0\0\0\0\0\0\0", b"", b"\nstep 3 pc 2 exited 0x0000000000000002\n"),
    (b"\xb7\x01\0\0\x09\0\0\0\x85\0\0\0\x01\0\0\0\x95\0\0\0\0\0\0\0", b"", b"\nstep 2 pc 1 fault F6\n"),
    (b"\xb7\x01\0\0\x03\0\0\0\x85\0\0\0\x18\0\0\0\x95\0\0\0\0\0\0\0", b"", b"\nstep 2 pc 1 fault F5\n"),
    // The size of a text of one character.
    (
        b"\x18\x01\0\0\0\0\0\0\0\0\0\0\x04\0\0\0\xb7\x02\0\0\x02\0\0\0\x85\0\0\0\x04\0\0\0\xbf\x01\0\0\0\0\0\0\x85\0\0\0\x08\0\0\0\xbf\x01\0\0\0\0\0\0\x85\0\0\0\x02\0\0\0\x95\0\0\0\0\0\0\0",
        b"\xc3\xa9",
        b"\nstep 8 pc 8 exited 0x0000000000000001\n",
    ),
    // A list nested in a list, repeatedly: that of depth 255 is made, that of 256 is not.
    (
        b"\x85\0\0\0\x10\0\0\0\xbf\x06\0\0\0\0\0\0\x85\0\0\0\x10\0\0\0\xbf\x01\0\0\0\0\0\0\xbf\x62\0\0\0\0\0\0\x85\0\0\0\x11\0\0\0\xbf\x06\0\0\0\0\0\0\x05\0\xfa\xff\0\0\0\0",
        b"",
        b"\nstep 1530 pc 5 fault F8\n",
    ),
    // A text that is doubled until the charge exceeds its limit.
    (
        b"\x18\x01\0\0\0\0\0\0\0\0\0\0\x04\0\0\0\xb7\x02\0\0\x01\0\0\0\x85\0\0\0\x04\0\0\0\xbf\x01\0\0\0\0\0\0\xbf\x02\0\0\0\0\0\0\x85\0\0\0\x0b\0\0\0\x05\0\xfc\xff\0\0\0\0",
        b"a",
        b"\nstep 94 pc 6 fault F8\n",
    ),
];

/// Code without constants, and the last line that its run prints.
#[rattlefmt::skip]
const RUNS: [(&[u8], &[u8]); 12] = [
    // The wide load lacks its second slot.
    (b"\x18\0\0\0\0\0\0\0", b"\nstep 1 pc 0 fault F2\n"),
    // An atomic instruction without an operation.
    (b"\xdb\x1a\xf8\xff\xf0\0\0\0", b"\nstep 1 pc 0 fault F2\n"),
    // The jump goes to the second slot of a wide load.
    (b"\x05\0\x01\0\0\0\0\0\x18\0\0\0\x05\0\0\0\0\0\0\0\0\0\0\0\x95\0\0\0\0\0\0\0", b"\nstep 2 pc 2 fault F2\n"),
    // The load is from the last address.
    (b"\xb7\x01\0\0\xff\xff\xff\xff\x79\x10\0\0\0\0\0\0", b"\nstep 2 pc 1 fault F3\n"),
    // The function calls itself.
    (b"\x85\x10\0\0\xff\xff\xff\xff", b"\nstep 8 pc 0 fault F7\n"),
    // 0x80 as a signed byte, to 64 and to 32 bits.
    (b"\xb7\x01\0\0\x80\0\0\0\xbf\x10\x08\0\0\0\0\0\x95\0\0\0\0\0\0\0", b"\nstep 3 pc 2 exited 0xffffffffffffff80\n"),
    (b"\xb7\x01\0\0\x80\0\0\0\xbc\x10\x08\0\0\0\0\0\x95\0\0\0\0\0\0\0", b"\nstep 3 pc 2 exited 0x00000000ffffff80\n"),
    // 0x1234 as two bytes in reverse order, and as four.
    (b"\xb7\0\0\0\x34\x12\0\0\xdc\0\0\0\x10\0\0\0\x95\0\0\0\0\0\0\0", b"\nstep 3 pc 2 exited 0x0000000000003412\n"),
    (b"\xb7\0\0\0\x34\x12\0\0\xd7\0\0\0\x20\0\0\0\x95\0\0\0\0\0\0\0", b"\nstep 3 pc 2 exited 0x0000000034120000\n"),
    // 0x100000007 modulo 0: for 32 bits the low half is the result.
    (
        b"\x18\x01\0\0\x07\0\0\0\0\0\0\0\x01\0\0\0\x9c\x21\0\0\0\0\0\0\xbf\x10\0\0\0\0\0\0\x95\0\0\0\0\0\0\0",
        b"\nstep 4 pc 4 exited 0x0000000000000007\n",
    ),
    // An atomic instruction adds 5 to a word that is 7, and moves the 7 to R1.
    (
        b"\xb7\x01\0\0\x05\0\0\0\x7a\x0a\xf8\xff\x07\0\0\0\xdb\x1a\xf8\xff\x01\0\0\0\x79\xa0\xf8\xff\0\0\0\0\x95\0\0\0\0\0\0\0",
        b"r0 0x000000000000000c\nr1 0x0000000000000007\nr2 0x0000000000000000\nr3 0x0000000000000000\nr4 0x0000000000000000\nr5 0x0000000000000000\nr6 0x0000000000000000\nr7 0x0000000000000000\nr8 0x0000000000000000\nr9 0x0000000000000000\nr10 0x0000000100000200\nstep 5 pc 4 exited 0x000000000000000c\n",
    ),
    // A move of 32 bits clears the upper half.
    (b"\xb4\0\0\0\xff\xff\xff\xff\x95\0\0\0\0\0\0\0", b"\nstep 2 pc 1 exited 0x00000000ffffffff\n"),
];

/// Whether the run of this code with these constants prints this line last.
fn ends_with(alloc: Global, code: &[u8], constants: &[u8], line: &[u8]) -> Result<bool, LoadError> {
    let (text, _) = run_image(alloc, &file(alloc, code, constants)?, 2000)?;
    Ok(text.ends_with(line))
}

#[test]
fn calls_helpers(rt: HostRuntime) -> Result<(), Fail> {
    for (row, &(code, constants, line)) in CALLS.iter().enumerate() {
        assert!(rt; ends_with(rt.alloc(), code, constants, line)?, "row {row}");
    }
    Ok(())
}

#[test]
fn runs_to_the_last_line(rt: HostRuntime) -> Result<(), Fail> {
    for (row, &(code, line)) in RUNS.iter().enumerate() {
        assert!(rt; ends_with(rt.alloc(), code, b"", line)?, "row {row}");
    }
    Ok(())
}

/// `r0 = 5`, `r0 += 2` and `exit`.
const SEVEN: &[u8] = b"\xb7\0\0\0\x05\0\0\0\x07\0\0\0\x02\0\0\0\x95\0\0\0\0\0\0\0";

/// The output of its run.
const PRINTED: &[u8] = b"r0 0x0000000000000007
r1 0x0000000000000000
r2 0x0000000000000000
r3 0x0000000000000000
r4 0x0000000000000000
r5 0x0000000000000000
r6 0x0000000000000000
r7 0x0000000000000000
r8 0x0000000000000000
r9 0x0000000000000000
r10 0x0000000100000200
step 3 pc 2 exited 0x0000000000000007
";

#[test]
fn prints_registers(rt: HostRuntime) -> Result<(), Fail> {
    let (text, status) = run_image(rt.alloc(), &file(rt.alloc(), SEVEN, b"")?, 10_000_000)?;
    assert!(rt; text.as_slice() == PRINTED);
    assert!(rt; status == Status::Exited(7));
    Ok(())
}
