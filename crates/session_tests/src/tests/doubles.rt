//! A source and a sink in memory that fail at given calls.

mod feed;
mod tape;

pub use feed::Feed;
pub use tape::Tape;
