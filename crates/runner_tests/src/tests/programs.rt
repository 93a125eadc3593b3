//! The whole program, with files and streams in memory.

use super::doubles::Folder;
use super::refusal_line;
use debugger::Counting;
use review_runner::{OrderError, exit_code};
use std::alloc::{AllocError, Global};
use std::process::ExitCode;
use std::test::Fail;

/// The image of `r0 = 5` and `exit`.
const TWO: &[u8] = b"CELBPF01\x02\0\0\0\0\0\0\0\xb7\0\0\0\x05\0\0\0\x95\0\0\0\0\0\0\0";

/// The words of a command line that are separated by spaces.
pub fn words(alloc: Global, line: &str) -> Result<Vec<String>, AllocError> {
    let mut words = Vec::new(alloc);
    for word in line.split(' ') {
        words.push(String::from_str(alloc, word)?)?;
    }
    Ok(words)
}

/// A text of two instructions and its image, which is writable.
fn folder<'a>(alloc: Global) -> Result<Folder<'a>, AllocError> {
    Ok(Folder {
        text: b"mov64 r0, 5\nexit",
        image: Vec::from_slice(alloc, TWO)?,
        is_writable: true,
    })
}

/// The outcome of the program: its code, and the first bytes of both outputs.
#[derive(Drop)]
struct Said {
    code: ExitCode,
    out: [u8; 32],
    err: [u8; 32],
}

/// The outcome of the program with these words, if standard output has this capacity.
fn program(
    alloc: Global,
    words: Result<Vec<String>, OrderError>,
    room: usize,
) -> Result<Said, AllocError> {
    let mut out = [0u8; 32];
    let mut err = [0u8; 32];
    let (front, _) = out.split_at_mut(room.min(32));
    let code = exit_code(
        alloc,
        words,
        &mut folder(alloc)?,
        &mut Counting::new(b"s 1\nq\n".as_slice()),
        &mut Counting::new(&mut *front),
        &mut Counting::new(&mut err[..]),
    );
    Ok(Said { code, out, err })
}

/// Whether the bytes are those of the text, followed by zeros.
pub fn is_text(bytes: &[u8], text: &[u8]) -> bool {
    bytes.starts_with(text) && bytes.get(text.len()) == Some(&0)
}

fn is_said(said: &Said, status: u8, out: &[u8], err: &[u8]) -> bool {
    said.code == ExitCode::from(status) && is_text(&said.out, out) && is_text(&said.err, err)
}

/// The words, the capacity of standard output, the status, standard output and the refusal.
const ROWS: [(&str, usize, u8, &[u8], &str); 10] = [
    ("celbpf list a.img", 31, 0, b"mov64 r0, 5\nexit\n", ""),
    ("celbpf list a.img", 3, 3, b"mov", "file"),
    ("celbpf list b.img", 31, 3, b"", "file"),
    ("celbpf asm a.txt a.img", 31, 0, b"", ""),
    ("celbpf debug a.img", 31, 0, b"step 1 pc 1 running\n", ""),
    ("celbpf debug a.img", 4, 3, b"step", "S2"),
    ("celbpf debug a.img --review a.txt", 31, 3, b"", "N2"),
    ("celbpf debug a.img --params a.txt", 31, 3, b"", "N3"),
    ("celbpf debug a.txt --namespace b.json", 31, 3, b"", "file"),
    ("celbpf", 31, 2, b"", "U1"),
];

#[test]
fn ends_with_its_code(rt: HostRuntime) -> Result<(), Fail> {
    for (row, &(line, room, status, out, refusal)) in ROWS.iter().enumerate() {
        let said = program(rt.alloc(), Ok(words(rt.alloc(), line)?), room)?;
        let err = refusal_line(rt.alloc(), refusal)?;
        assert!(rt; is_said(&said, status, out, err.as_bytes()), "row {row}");
    }
    Ok(())
}

#[test]
fn has_no_words(rt: HostRuntime) -> Result<(), Fail> {
    let no_text = program(rt.alloc(), Err(OrderError::InvalidArguments), 31)?;
    assert!(rt; is_said(&no_text, 2, b"", b"celbpf: U1\n"));
    let no_memory = program(rt.alloc(), Err(OrderError::Memory), 31)?;
    assert!(rt; is_said(&no_memory, 3, b"", b"celbpf: memory\n"));
    Ok(())
}
