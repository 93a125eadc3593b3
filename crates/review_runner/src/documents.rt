//! File names, and the contents of files.

pub(crate) mod document_names;
pub(crate) mod held_files;
pub(crate) mod review_names;
