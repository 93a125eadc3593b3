//! Sources that are read line by line.
ghost use Rattle.std.specs.Prelude.{◌≡◌, [], ℕ, List, Some, Err};
ghost use Rattle.streams.specs.Failures.{FailsByResult};
ghost use Rattle.streams.specs.Hearing.{HeardByResult};

use crate::listener::Listener;
use crate::session_error::SessionError;
use crate::sink::Sink;
use crate::source::Source;

/// A source that passes its lines to a listener from where they were read.
pub trait LineSource: Source {
    /// Passes the lines to the listener, until the listener or the source ends. A line is passed before more is
    /// read. Only the first 2^63 bytes of a source are read.
    ///
    /// # Errors
    ///
    /// `ReadFailed` if a read fails and `WriteFailed` if the listener's write fails; either ends the loop.
    fn hear_lines<L: Listener, W: Sink>(
        &mut self,
        listener: &mut L,
        w: &mut W,
    ) -> Result<(), SessionError>
        requires { (before : List ℕ) → W.taken w.old ≡ Some before → L.goes listener.old listener.old before [] (W.taken w.old) }
        ensures told { (input before : List ℕ) → Self.left self.old ≡ Some input → W.taken w.old ≡ Some before
            → HeardByResult (L.goes listener.new listener.old before)
            (λ last. L.ended last listener.new listener.old before) (λ last. L.broke last listener.new listener.old before)
            input (Self.left self.new) (W.taken w.new) result }
        ensures fails { FailsByResult (Self.failed self.old) (Self.failed self.new) (W.failed w.old) (W.failed w.new) result }
        ensures no_memory { result ≡ Err SessionError.Memory → ⊥ };
}
