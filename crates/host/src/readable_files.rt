//! Files that are only read, with the reason if one is not.
ghost use Rattle.std.specs.Prelude.{◌≡◌, Option};
ghost use Rattle.host.specs.FileSystem.{FileSystem, ReadsOrFails};

use crate::file_read_error::FileReadError;
use std::alloc::Global;

/// Files by their names that are only read. Unlike `Files`, they give the reason if one cannot be read.
pub trait ReadableFiles {
    /// The contents of the files if they are known; those of a disk are not.
    ghost known: { Self → Option FileSystem };

    /// The bytes of the file with this name, or why it is not read.
    fn read_file(&mut self, alloc: Global, name: &str) -> Result<Vec<u8>, FileReadError>
        ensures read { ReadsOrFails (known self.old) name.now result }
        ensures known { known self.new ≡ known self.old };
}
