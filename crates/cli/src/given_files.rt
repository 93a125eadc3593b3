//! Optional files.
ghost use Rattle.std.specs.Prelude.{◌≡◌, option_map, string_bytes};
ghost use Rattle.cli.specs.GivenFiles.{reading_given_of, IsReadingGiven};

use host::{FileError, Files};
use std::alloc::Global;

/// Reads the file with this name, if there is a name.
pub fn read_given<F: Files>(
    alloc: Global,
    name: &Option<String>,
    files: &mut F,
) -> Result<Option<Vec<u8>>, FileError>
    ensures read { IsReadingGiven (F.known files.old) (option_map string_bytes name.now) (reading_given_of result) }
    ensures known { F.known files.new ≡ F.known files.old }
{
    read_named(alloc, name.as_deref(), files)
}

/// `read_given` with a borrowed name.
pub fn read_named<F: Files>(
    alloc: Global,
    name: Option<&str>,
    files: &mut F,
) -> Result<Option<Vec<u8>>, FileError>
    ensures read { IsReadingGiven (F.known files.old) (option_map (λ s. s.now) name.entry) (reading_given_of result) }
    ensures known { F.known files.new ≡ F.known files.old }
{
    match name {
        Some(name) => Ok(Some(files.read(alloc, name)?)),
        None => Ok(None),
    }
}
