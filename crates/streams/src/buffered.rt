//! Sources with their own buffer.
ghost use Rattle.std.specs.Prelude.{◌≡◌, ◌<◌, []};
ghost use Rattle.streams.specs.Buffers.{buffered};

use crate::failed::Failed;
use crate::hearing::hear_input;
use crate::line_source::LineSource;
use crate::listener::Listener;
use crate::read_buffer::ReadBuffer;
use crate::session_error::SessionError;
use crate::sink::Sink;
use crate::source::Source;

/// A source that is read at most `N` bytes at a time, into a buffer that is not allocated.
#[derive(Drop)]
pub struct Buffered<R, const N: usize> {
    source: R,
    buffer: ReadBuffer<N>,
    ghost some: { 0 < N },
}

impl<R, const N: usize> Buffered<R, N> {
    /// The source with an empty buffer.
    pub fn new(source: R) -> Buffered<R, N>
        requires { 0 < N }
        ensures source { result.source ≡ source }
        ensures buffer { result.buffer ≡ [] }
    {
        Buffered {
            source,
            buffer: ReadBuffer::new(),
        }
    }
}

impl<R: Source, const N: usize> Source for Buffered<R, N> {
    ghost left = { λ b. buffered b.buffer (R.left b.source) };

    ghost failed = { λ b. R.failed b.source };

    fn read(&mut self, buf: &mut [u8]) -> Result<usize, Failed> {
        self.buffer.fill(&mut self.source)?;
        Ok(self.buffer.take(buf))
    }

    fn failures(&self) -> u64 {
        self.source.failures()
    }
}

impl<R: Source, const N: usize> LineSource for Buffered<R, N> {
    fn hear_lines<L: Listener, W: Sink>(
        &mut self,
        listener: &mut L,
        w: &mut W,
    ) -> Result<(), SessionError> {
        hear_input(listener, &mut self.buffer, &mut self.source, w)
    }
}
