//! Why the system does not read a file.
ghost use Rattle.std.specs.Prelude.{◌≡◌, Some};
ghost use Rattle.host.specs.ErrorCodes.{failure_of, failure_text};

use std::fmt;
use std::io::ErrorKind;

/// Why the system does not read a file.
#[derive(Clone, Copy, Debug, PartialEq, Eq)]
pub enum FileFailure {
    /// There is no file with this name.
    NotFound,
    PermissionDenied,
    IsADirectory,
    /// Any other failure.
    Other,
}

impl FileFailure {
    /// The failure of this kind.
    pub(crate) fn of_kind(kind: ErrorKind) -> FileFailure
        ensures { result ≡ failure_of kind }
    {
        match kind {
            ErrorKind::NotFound => FileFailure::NotFound,
            ErrorKind::PermissionDenied => FileFailure::PermissionDenied,
            ErrorKind::IsADirectory => FileFailure::IsADirectory,
            _ => FileFailure::Other,
        }
    }

    /// What it says of the file.
    pub fn text(self) -> &'static str
        ensures { result.now ≡ failure_text self }
    {
        match self {
            FileFailure::NotFound => "not found",
            FileFailure::PermissionDenied => "permission denied",
            FileFailure::IsADirectory => "is a directory",
            FileFailure::Other => "cannot be read",
        }
    }
}

impl fmt::Display for FileFailure {
    ghost output = { λ f. Some (failure_text f) };

    fn fmt<W: fmt::Write>(&self, f: &mut fmt::Formatter<W>) -> fmt::Result {
        f.write_str(self.text())
    }
}
