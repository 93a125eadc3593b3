//! The files of a policy and of a review.

use review_runner::{FileError, Files};
use std::alloc::Global;

/// A policy `p.json`, a review `r.json`, a namespace `n.json` and params `a.json` if they
/// are given, and a writable image `a.img`.
#[derive(Drop)]
pub struct Documents<'a> {
    pub policy: &'a [u8],
    pub review: &'a [u8],
    pub namespace: Option<&'a [u8]>,
    pub params: Option<&'a [u8]>,
    pub image: Vec<u8>,
}

impl<'a> Documents<'a> {
    /// These two documents, and an empty image.
    pub fn new(alloc: Global, policy: &'a [u8], review: &'a [u8]) -> Documents<'a> {
        Documents {
            policy,
            review,
            namespace: None,
            params: None,
            image: Vec::new(alloc),
        }
    }

    /// The contents of the file with this name, if there is one.
    fn file(&self, name: &str) -> Option<&[u8]> {
        match name {
            "p.json" => Some(self.policy),
            "r.json" => Some(self.review),
            "n.json" => self.namespace,
            "a.json" => self.params,
            "a.img" => Some(&self.image),
            _ => None,
        }
    }
}

impl Files for Documents<'_> {
    ghost use Rattle.std.specs.Prelude.{None};

    ghost known = { λ _. None };

    fn read(&mut self, alloc: Global, name: &str) -> Result<Vec<u8>, FileError> {
        held(alloc, self.file(name))
    }

    fn write(&mut self, name: &str, bytes: &[u8]) -> Result<(), FileError> {
        if name != "a.img" {
            return Err(FileError::Failed);
        }
        self.image.clear();
        self.image.extend_from_slice(bytes)?;
        Ok(())
    }
}

/// A copy of a file's contents, if there is one.
fn held(alloc: Global, file: Option<&[u8]>) -> Result<Vec<u8>, FileError> {
    match file {
        Some(bytes) => Ok(Vec::from_slice(alloc, bytes)?),
        None => Err(FileError::Failed),
    }
}
