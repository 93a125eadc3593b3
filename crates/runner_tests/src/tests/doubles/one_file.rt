//! A file of known bytes.

use review_runner::{FileError, Files};
use std::alloc::Global;

/// A single read-only file, named `a.img`.
#[derive(Drop)]
pub struct OneFile<'a> {
    pub bytes: &'a [u8],
}

impl Files for OneFile<'_> {
    ghost use Rattle.std.specs.Prelude.{Some, None, codes, false, if◌then◌else◌};
    ghost use Rattle.std.specs.Str.{bytes_eq};
    ghost use Rattle.host.specs.declared.file_failure.FileFailure.TheVariants.{NotFound};

    ghost known = { λ f. Some (record { holds = λ name. (if bytes_eq name (codes "a.img") then Some f.bytes.now else None); takes = λ _. false; unread = λ _. NotFound }) };

    fn read(&mut self, alloc: Global, name: &str) -> Result<Vec<u8>, FileError> {
        if name == "a.img" {
            Ok(Vec::from_slice(alloc, self.bytes)?)
        } else {
            Err(FileError::Failed)
        }
    }

    fn write(&mut self, _name: &str, _bytes: &[u8]) -> Result<(), FileError> {
        Err(FileError::Failed)
    }
}
