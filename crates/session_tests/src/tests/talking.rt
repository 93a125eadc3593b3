//! Sessions in memory.

use super::doubles::{Feed, Tape};
use debugger::{SessionError, session};
use loader::Image;
use std::alloc::Global;
use value_table::Table;

/// The end of a session, if it could begin.
pub type Ended = Option<Result<(), SessionError>>;

/// The end of a session with this image and these values, if both were made.
pub fn talk(
    alloc: Global,
    image: Option<Image>,
    values: Option<Table>,
    feed: &mut Feed,
    tape: &mut Tape,
) -> Ended {
    let image = image?;
    let values = values?;
    Some(session(alloc, image, values, feed, tape))
}

/// Whether a session with them writes this.
pub fn says(
    alloc: Global,
    image: Option<Image>,
    values: Option<Table>,
    input: &'static [u8],
    said: &[u8],
) -> bool {
    let mut feed = Feed::new(input, 1000, 0);
    let mut tape = Tape::new(Vec::new(alloc), 1000, 0, 0);
    talk(alloc, image, values, &mut feed, &mut tape) == Some(Ok(())) && tape.bytes() == said
}
