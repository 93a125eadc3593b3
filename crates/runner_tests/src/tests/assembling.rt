//! The commands `asm` and `list` on files in memory.

use super::doubles::Folder;
use super::refusal_line;
use review_runner::{Done, Order, perform};
use std::alloc::{AllocError, Global};
use std::test::Fail;

/// The outcome of `asm` with the names of a text and an image.
fn assembled(
    alloc: Global,
    text: &str,
    image: &str,
    files: &mut Folder<'_>,
) -> Result<Done, AllocError> {
    let text = String::from_str(alloc, text)?;
    let image = String::from_str(alloc, image)?;
    perform(alloc, &Order::Assemble { text, image }, files)
}

/// Whether this is the status, and these are the bytes of both outputs.
fn is_done(done: &Done, status: u8, out: &[u8], err: &[u8]) -> bool {
    done.status == status && done.out.as_slice() == out && done.err.as_slice() == err
}

/// The image of `r0 = 5` and `exit`.
const TWO: &[u8] = b"CELBPF01\x02\0\0\0\0\0\0\0\xb7\0\0\0\x05\0\0\0\x95\0\0\0\0\0\0\0";

/// `r0 = 1`, a jump over `r0 = 2`, and `exit`; and its image.
const JUMPS: &[u8] = b"mov64 r0, 1\nja end\nmov64 r0, 2\nend:\nexit";

const JUMPING: &[u8] =
    b"CELBPF01\x04\0\0\0\0\0\0\0\xb7\0\0\0\x01\0\0\0\x05\0\x01\0\0\0\0\0\xb7\0\0\0\x02\0\0\0\x95\0\0\0\0\0\0\0";

/// The contents of the image's file before a text is assembled.
const OLD: &[u8] = b"old";

/// Whether `asm` of this text writes this image, and nothing to either output.
fn assembles(alloc: Global, text: &[u8], made: &[u8]) -> Result<bool, AllocError> {
    let image = Vec::from_slice(alloc, OLD)?;
    let mut files = Folder {
        text,
        image,
        is_writable: true,
    };
    let done = assembled(alloc, "a.txt", "a.img", &mut files)?;
    Ok(is_done(&done, 0, b"", b"") && files.image.as_slice() == made)
}

/// Texts with their images.
const IMAGES: [(&[u8], &[u8]); 2] = [(b"mov64 r0, 5\nexit\n", TWO), (JUMPS, JUMPING)];

#[test]
fn assembles_texts(rt: HostRuntime) -> Result<(), Fail> {
    for (row, &(text, made)) in IMAGES.iter().enumerate() {
        assert!(rt; assembles(rt.alloc(), text, made)?, "row {row}");
    }
    Ok(())
}

/// The outcome of `run-image` on the image that `asm` makes of this text.
fn ran(alloc: Global, text: &[u8]) -> Result<Done, AllocError> {
    let mut files = Folder {
        text,
        image: Vec::new(alloc),
        is_writable: true,
    };
    assembled(alloc, "a.txt", "a.img", &mut files)?;
    let image = String::from_str(alloc, "a.img")?;
    let steps = 10_000_000;
    perform(alloc, &Order::RunImage { image, steps }, &mut files)
}

/// Nests a list in a new list, repeatedly.
const NESTS: &[u8] =
    b"call 16\nmov64 r6, r0\na:\ncall 16\nmov64 r1, r0\nmov64 r2, r6\ncall 17\nmov64 r6, r0\nja a\n";

/// Texts, the end of the output of their runs, and the status. A list of depth 256 cannot be made.
const RUNS: [(&[u8], &[u8], u8); 2] = [
    (JUMPS, b"\nstep 3 pc 3 exited 0x0000000000000001\n", 0),
    (NESTS, b"\nstep 1530 pc 5 fault F8\n", 1),
];

#[test]
fn runs_texts(rt: HostRuntime) -> Result<(), Fail> {
    for (row, &(text, end, status)) in RUNS.iter().enumerate() {
        let done = ran(rt.alloc(), text)?;
        assert!(rt;
            done.status == status && done.out.ends_with(end),
            "row {row}"
        );
    }
    Ok(())
}

/// An `asm` command: the text, the names of the files, and whether the image is writable.
#[derive(Clone, Copy)]
struct Assembly<'a> {
    text: &'a [u8],
    from: &'a str,
    to: &'a str,
    is_writable: bool,
}

/// Whether the command writes this line to standard error, and leaves the image's file unchanged.
fn refuses(alloc: Global, assembly: Assembly<'_>, line: &[u8]) -> Result<bool, AllocError> {
    let image = Vec::from_slice(alloc, OLD)?;
    let mut files = Folder {
        text: assembly.text,
        image,
        is_writable: assembly.is_writable,
    };
    let done = assembled(alloc, assembly.from, assembly.to, &mut files)?;
    Ok(is_done(&done, 3, b"", line) && files.image.as_slice() == OLD)
}

/// A text, the names of the files, whether the image is writable, and the refusal.
const REFUSED: [(&[u8], &str, &str, bool, &str); 10] = [
    (b"mov64 r0,5\n", "a.txt", "a.img", true, "A1 line 1"),
    (b"exit\n\nexit", "a.txt", "a.img", true, "A1 line 2"),
    (b"mov64 r0, 2147483648", "a.txt", "a.img", true, "A2 line 1"),
    (b"ja away", "a.txt", "a.img", true, "A3 line 1"),
    (b"a:\na:", "a.txt", "a.img", true, "A4 line 2"),
    (b"exit\n\xff", "a.txt", "a.img", true, "text"),
    (b"", "a.txt", "a.img", true, "L3"),
    (b"exit", "b.txt", "a.img", true, "file"),
    (b"exit", "a.txt", "b.img", true, "file"),
    (b"exit", "a.txt", "a.img", false, "file"),
];

/// Whether `asm` refuses these lines, with this many lines `exit` between them, with this error.
fn refuses_lines(
    alloc: Global,
    first: &str,
    exits: usize,
    last: &str,
    refusal: &str,
) -> Result<bool, AllocError> {
    let mut text = String::from_str(alloc, first)?;
    text.push_str("exit\n".repeat(alloc, exits)?.as_str())?;
    text.push_str(last)?;
    let line = refusal_line(alloc, refusal)?;
    let assembly = Assembly {
        text: text.as_bytes(),
        from: "a.txt",
        to: "a.img",
        is_writable: true,
    };
    refuses(alloc, assembly, line.as_bytes())
}

/// A first line, the number of lines `exit` after it, a last line, and the refusal.
const FAR: [(&str, usize, &str, &str); 2] = [
    ("ja away\n", 32_768, "away:", "A5 line 1"),
    ("", 65_537, "", "A6 line 65537"),
];

#[test]
fn refuses_long_texts(rt: HostRuntime) -> Result<(), Fail> {
    for &(first, exits, last, refusal) in FAR.iter() {
        assert!(rt;
            refuses_lines(rt.alloc(), first, exits, last, refusal)?,
            "{refusal}"
        );
    }
    Ok(())
}

#[test]
fn refuses_texts(rt: HostRuntime) -> Result<(), Fail> {
    for (row, &(text, from, to, is_writable, refusal)) in REFUSED.iter().enumerate() {
        let line = refusal_line(rt.alloc(), refusal)?;
        let assembly = Assembly {
            text,
            from,
            to,
            is_writable,
        };
        assert!(rt;
            refuses(rt.alloc(), assembly, line.as_bytes())?,
            "row {row}"
        );
    }
    Ok(())
}

/// The outcome of `list` with this name, if `a.img` has these bytes.
fn listed(alloc: Global, bytes: &[u8], name: &str) -> Result<Done, AllocError> {
    let mut files = Folder {
        text: b"",
        image: Vec::from_slice(alloc, bytes)?,
        is_writable: false,
    };
    let image = String::from_str(alloc, name)?;
    perform(alloc, &Order::List { image }, &mut files)
}

/// The listing of the image, and an image without its last byte.
const LISTING: &[u8] = b"mov64 r0, 1\nja +1\nmov64 r0, 2\nexit\n";

const CUT: &[u8] = b"CELBPF01\x01\0\0\0\0\0\0\0\x95\0\0\0\0\0\0";

/// The image of a program that adds to a word of the stack, and its listing.
const ADDING: &[u8] =
    b"CELBPF01\x05\0\0\0\0\0\0\0\xb7\x01\0\0\x05\0\0\0\x7a\x0a\xf8\xff\x07\0\0\0\xdb\x1a\xf8\xff\x01\0\0\0\x79\xa0\xf8\xff\0\0\0\0\x95\0\0\0\0\0\0\0";

const ADDING_LISTING: &[u8] =
    b"mov64 r1, 5\nstdw [r10-8], 7\natomic_fetch_add64 [r10-8], r1\nldxdw r0, [r10-8]\nexit\n";

/// The contents of the image's file, the name that is given, the output, and the status.
const LISTED: [(&[u8], &str, &[u8], &[u8], u8); 5] = [
    (JUMPING, "a.img", LISTING, b"", 0),
    (ADDING, "a.img", ADDING_LISTING, b"", 0),
    (OLD, "a.img", b"", b"celbpf: L1\n", 3),
    (CUT, "a.img", b"", b"celbpf: L5\n", 3),
    (JUMPING, "b.img", b"", b"celbpf: file\n", 3),
];

#[test]
fn lists_images(rt: HostRuntime) -> Result<(), Fail> {
    for (row, &(bytes, name, out, err, status)) in LISTED.iter().enumerate() {
        let done = listed(rt.alloc(), bytes, name)?;
        assert!(rt; is_done(&done, status, out, err), "row {row}");
    }
    Ok(())
}
