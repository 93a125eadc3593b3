//! Reads orders from a command line and carries them out with files and streams from the caller.
//! `exit_code` is the whole program; `order` reads the words, `perform` carries out an order, and
//! `debug` runs a session.
#![tactic(auto)]

mod command_line;
mod documents;
mod done;
mod images;
pub mod laws;
mod performing;
pub mod program;
mod report;
mod review_files;
pub mod rows;

pub use admission::{Decision, Gate, PolicyRefusal, Reply, RunError, review, roots};
pub use cli::Refusal;
pub use command_line::order::Order;
pub use command_line::reader::order;
pub use documents::document_names::DocumentNames;
pub use documents::review_names::ReviewNames;
pub use done::Done;
pub use host::{FileError, Files, OrderError};
pub use images::debugging::debug;
pub use images::running::{RunImageError, run_image};
pub use performing::perform;
pub use program::exit_code;
