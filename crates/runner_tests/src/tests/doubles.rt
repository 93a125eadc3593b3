//! Files and a reader in memory.

mod clusters;
mod cut_short;
mod folder;
mod one_binding;
mod one_file;
mod policies;

pub use clusters::Clusters;
pub use cut_short::CutShort;
pub use folder::Folder;
pub use one_binding::OneBinding;
pub use one_file::OneFile;
pub use policies::{DEEP, Policies};
