//! The files of the operating system.
ghost use Rattle.std.specs.Prelude.{◌≡◌, Err, IfErr, IfOk, Ok};
ghost use Rattle.std.specs.IoError.{error_kind};
ghost use Rattle.host.specs.ErrorCodes.{failure_of};

use crate::file_error::FileError;
use crate::file_failure::FileFailure;
use crate::file_read_error::FileReadError;
use crate::files::Files;
use crate::readable_files::ReadableFiles;
use std::alloc::Global;
use std::fs::{self, Metadata, OpenFile};
use std::io::{self, Error, ErrorKind, Write};
use std::os::unix::fs::MetadataExt;
use std::rt;

/// The files of the operating system. Nothing is known about them before they are read.
#[derive(Drop)]
pub struct Disk<'a, R> {
    rt: &'a R,
}

impl<'a, R: rt::Files + AllocGlobal> Disk<'a, R> {
    pub fn new(rt: &'a R) -> Disk<'a, R> {
        Disk { rt }
    }
}

impl<'a, R: rt::Files + AllocGlobal> Files for Disk<'a, R> {
    ghost use Rattle.std.specs.Prelude.{None};

    ghost known = { λ _. None };

    fn read(&mut self, _alloc: Global, name: &str) -> Result<Vec<u8>, FileError> {
        answered(fs::read(self.rt, name))
    }

    fn write(&mut self, name: &str, bytes: &[u8]) -> Result<(), FileError> {
        answered(written(self.rt, name, bytes))
    }
}

impl<'a, R: rt::Files + AllocGlobal> ReadableFiles for Disk<'a, R> {
    ghost use Rattle.std.specs.Prelude.{None};

    ghost known = { λ _. None };

    fn read_file(&mut self, _alloc: Global, name: &str) -> Result<Vec<u8>, FileReadError> {
        explained(fs::read(self.rt, name))
    }
}

/// Replaces the contents of a file. If not all bytes are written, for example because the disk is full, a
/// regular file is removed, so that nobody takes it for the whole. A file that cannot be opened stays.
fn written<R: rt::Files + AllocGlobal>(rt: &R, name: &str, bytes: &[u8]) -> io::Result<()> {
    let mut file = fs::create(rt, name)?;
    let answer = file.write_all(bytes);
    if answer.is_err()
        && let Ok(opened) = file.metadata()
    {
        let _ = remove_opened(rt, name, &opened);
    }
    answer
}

/// Removes the regular file that was opened by this name, if the name still leads to it. A link on the way to it
/// stays, as do a device and a pipe.
pub(crate) fn remove_opened<R: rt::Files + AllocGlobal>(
    rt: &R,
    name: &str,
    opened: &Metadata,
) -> io::Result<()> {
    let path = fs::canonicalize(rt, name)?;
    let found = fs::symlink_metadata(rt, &path)?;
    if opened.is_file() && opened.dev() == found.dev() && opened.ino() == found.ino() {
        fs::remove_file(rt, &path)?;
    }
    Ok(())
}

/// The system's result, with its error as a `FileError`.
fn answered<T: Drop>(answer: io::Result<T>) -> Result<T, FileError>
    ensures ok { IfOk answer (λ t. result ≡ Ok t) }
    ensures memory { IfErr answer (λ e. error_kind e ≡ ErrorKind.OutOfMemory → result ≡ Err FileError.Memory) }
    ensures failed { IfErr answer (λ e. (error_kind e ≡ ErrorKind.OutOfMemory → ⊥) → result ≡ Err FileError.Failed) }
{
    match answer {
        Ok(given) => Ok(given),
        Err(error) => Err(file_error(error)),
    }
}

/// The `FileError` of a system error.
fn file_error(error: Error) -> FileError
    ensures memory { error_kind error ≡ ErrorKind.OutOfMemory → result ≡ FileError.Memory }
    ensures other { (error_kind error ≡ ErrorKind.OutOfMemory → ⊥) → result ≡ FileError.Failed }
{
    match error.kind() {
        ErrorKind::OutOfMemory => FileError::Memory,
        _ => FileError::Failed,
    }
}

/// The system's result, with its error as a `FileReadError`.
fn explained<T: Drop>(answer: io::Result<T>) -> Result<T, FileReadError>
    ensures ok { IfOk answer (λ t. result ≡ Ok t) }
    ensures memory { IfErr answer (λ e. error_kind e ≡ ErrorKind.OutOfMemory → result ≡ Err FileReadError.Memory) }
    ensures failed { IfErr answer (λ e. (error_kind e ≡ ErrorKind.OutOfMemory → ⊥) → result ≡ Err (FileReadError.Failed (failure_of (error_kind e)))) }
{
    match answer {
        Ok(given) => Ok(given),
        Err(error) => Err(read_error(error)),
    }
}

/// The `FileReadError` of a system error.
fn read_error(error: Error) -> FileReadError
    ensures memory { error_kind error ≡ ErrorKind.OutOfMemory → result ≡ FileReadError.Memory }
    ensures other { (error_kind error ≡ ErrorKind.OutOfMemory → ⊥) → result ≡ FileReadError.Failed (failure_of (error_kind error)) }
{
    match error.kind() {
        ErrorKind::OutOfMemory => FileReadError::Memory,
        kind => FileReadError::Failed(FileFailure::of_kind(kind)),
    }
}
