//! Tests: files of the operating system, written and read.

use crate::disk::{Disk, remove_opened};
use crate::file_error::FileError;
use crate::file_failure::FileFailure;
use crate::file_read_error::FileReadError;
use crate::files::Files;
use crate::readable_files::ReadableFiles;
use std::alloc::{AllocError, Global};
use std::os::unix::fs::symlink;
use std::test::Fail;
use std::{fs, io, rt};

/// More bytes than the system's buffer takes at once.
fn long(alloc: Global) -> Result<Vec<u8>, AllocError> {
    let mut bytes = Vec::new(alloc);
    bytes.resize(70_000, b'x')?;
    Ok(bytes)
}

/// Whether the file has these bytes after they were written to it.
fn keeps<R: rt::Files + AllocGlobal>(rt: &R, alloc: Global, bytes: &[u8]) -> bool {
    let mut disk = Disk::new(rt);
    if disk.write("kept", bytes).is_err() {
        return false;
    }
    match disk.read(alloc, "kept") {
        Ok(read) => read.as_slice() == bytes,
        Err(_) => false,
    }
}

#[test]
fn files_keep_what_is_written(rt: HostRuntime) -> Result<(), Fail> {
    assert!(rt; keeps(&rt, rt.alloc(), b"\0\xffCELBPF01"));
    assert!(rt; keeps(&rt, rt.alloc(), &long(rt.alloc())?));
    assert!(rt; keeps(&rt, rt.alloc(), b"a\n"));
    assert!(rt; keeps(&rt, rt.alloc(), b""));
    Ok(())
}

#[test]
fn a_missing_file_fails(rt: HostRuntime) {
    let read = Disk::new(&rt).read(rt.alloc(), "missing").err();
    assert!(rt; read == Some(FileError::Failed));
}

/// Names that cannot be read, and why.
const UNREAD: [(&str, FileFailure); 4] = [
    ("missing", FileFailure::NotFound),
    ("", FileFailure::NotFound),
    ("/", FileFailure::IsADirectory),
    ("/dev/null/a", FileFailure::Other),
];

#[test]
fn files_that_are_not_read_have_a_reason(rt: HostRuntime) {
    for (name, why) in &UNREAD {
        let read = Disk::new(&rt).read_file(rt.alloc(), name).err();
        assert!(rt; read == Some(FileReadError::Failed(*why)), "{name}");
    }
}

#[test]
fn a_file_in_a_missing_folder_is_not_written(rt: HostRuntime) {
    let written = Disk::new(&rt).write("missing/kept", b"a").err();
    assert!(rt; written == Some(FileError::Failed));
}

#[test]
fn a_device_that_takes_nothing_stays(rt: HostRuntime) {
    let written = Disk::new(&rt).write("/dev/full", b"a").err();
    assert!(rt; written == Some(FileError::Failed));
    assert!(rt; fs::metadata(&rt, "/dev/full").is_ok());
}

/// Removes what was opened by the first name, as if it were opened by the second.
fn remove_as<R: rt::Files + AllocGlobal>(rt: &R, opened: &str, name: &str) -> io::Result<()> {
    remove_opened(rt, name, &fs::metadata(rt, opened)?)
}

#[test]
fn a_link_to_a_file_that_is_removed_stays(rt: HostRuntime) {
    let mut disk = Disk::new(&rt);
    assert!(rt; disk.write("whole", b"a").is_ok() && disk.write("half", b"b").is_ok());
    assert!(rt; symlink(&rt, "half", "link").is_ok());
    assert!(rt; remove_as(&rt, "whole", "link").is_ok());
    assert!(rt; fs::metadata(&rt, "half").is_ok());
    assert!(rt; remove_as(&rt, "link", "link").is_ok());
    assert!(rt; fs::metadata(&rt, "half").is_err());
    assert!(rt; fs::remove_file(&rt, "link").is_ok() && fs::remove_file(&rt, "whole").is_ok());
}
