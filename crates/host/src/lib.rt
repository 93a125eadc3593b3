//! Access to the operating system for the programs: command line, files and standard input.
#![tactic(auto)]

mod disk;
#[cfg(test)]
mod disk_tests;
mod file_error;
mod file_failure;
mod file_read_error;
mod files;
mod order_error;
mod readable_files;
pub mod rows;
pub mod words;

pub use disk::Disk;
pub use file_error::FileError;
pub use file_failure::FileFailure;
pub use file_read_error::FileReadError;
pub use files::Files;
pub use order_error::OrderError;
pub use readable_files::ReadableFiles;
pub use streams::{Buffered, Counting};

/// Runs `$exit_code` on the words, the files and the streams of the system that `$rt` gives. Standard input is read
/// at most 8,192 bytes at a time, into a buffer that is not allocated.
#[macro_export]
macro_rules! on_this_system {
    ($exit_code:path, $rt:ident) => {
        $exit_code(
            $rt.alloc(),
            $crate::words::words(&$rt),
            &mut $crate::Disk::new(&$rt),
            &mut $crate::Buffered::<_, 8192>::new($crate::Counting::new($rt.reader())),
            &mut $crate::Counting::new(std::io::writer(&$rt)),
            &mut $crate::Counting::new($rt.stderr()),
        )
    };
}
