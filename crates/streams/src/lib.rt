//! Streams of bytes whose failures are counted: reads a source line by line, and writes whole texts to a sink.
#![tactic(auto)]

mod buffered;
mod counting;
mod failed;
mod hearing;
mod line_source;
mod listener;
mod read_buffer;
pub mod rows;
mod session_error;
mod sink;
mod source;
mod transfer;

pub use buffered::Buffered;
pub use counting::Counting;
pub use failed::Failed;
pub use hearing::hear_input;
pub use line_source::LineSource;
pub use listener::Listener;
pub use read_buffer::ReadBuffer;
pub use session_error::SessionError;
pub use sink::Sink;
pub use source::Source;
pub use transfer::write_all;
