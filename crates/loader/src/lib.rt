//! Reads and writes image files of the machine: its code and its constants in one file.
#![tactic(auto)]

mod format;
mod image;
pub mod laws;
mod limits;
mod load_error;
mod version;

pub use image::Image;
pub use limits::CONSTANTS_LIMIT;
pub use load_error::LoadError;
