//! Two files, one of which may be writable.

use review_runner::{FileError, Files};
use std::alloc::Global;

/// A text `a.txt` and an image `a.img`, which may be read-only.
#[derive(Drop)]
pub struct Folder<'a> {
    pub text: &'a [u8],
    pub image: Vec<u8>,
    pub is_writable: bool,
}

impl Files for Folder<'_> {
    ghost use Rattle.std.specs.Prelude.{None};

    ghost known = { λ _. None };

    fn read(&mut self, alloc: Global, name: &str) -> Result<Vec<u8>, FileError> {
        match name {
            "a.txt" => Ok(Vec::from_slice(alloc, self.text)?),
            "a.img" => Ok(Vec::from_slice(alloc, &self.image)?),
            _ => Err(FileError::Failed),
        }
    }

    fn write(&mut self, name: &str, bytes: &[u8]) -> Result<(), FileError> {
        if name != "a.img" || !self.is_writable {
            return Err(FileError::Failed);
        }
        self.image.clear();
        self.image.extend_from_slice(bytes)?;
        Ok(())
    }
}
