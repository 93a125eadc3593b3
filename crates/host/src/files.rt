//! Access to files by name.
ghost use Rattle.std.specs.Prelude.{◌≡◌, Option};
ghost use Rattle.host.specs.FileSystem.{FileSystem, IsReading, IsWriting, reading_of};

use crate::file_error::FileError;
use std::alloc::Global;

/// Files by their names.
pub trait Files {
    /// The contents of the files if they are known; those of a disk are not.
    ghost known: { Self → Option FileSystem };

    /// The bytes of the file with this name.
    fn read(&mut self, alloc: Global, name: &str) -> Result<Vec<u8>, FileError>
        ensures read { IsReading (known self.old) name.now (reading_of result) }
        ensures known { known self.new ≡ known self.old };

    /// Replaces the contents of the file with this name by these bytes.
    fn write(&mut self, name: &str, bytes: &[u8]) -> Result<(), FileError>
        ensures { IsWriting (known self.old) name.now bytes.now (known self.new) result };
}
