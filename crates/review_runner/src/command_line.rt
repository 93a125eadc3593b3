//! The command line, and the order that it gives.

mod commands;
pub(crate) mod order;
pub(crate) mod reader;
