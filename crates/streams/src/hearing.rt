//! The loop over the lines of an input.
ghost use Rattle.std.specs.Prelude.{◌≡◌, ◌<◌, ◌≤◌, [], ℕ, List, Some, Ok, Err, true, false, length, take, IfErr, OnErr, OnOk};
ghost use Rattle.streams.specs.Buffers.{buffered};
ghost use Rattle.streams.specs.Failures.{FailsByResult};
ghost use Rattle.streams.specs.Hearing.{HeardByResult, Hears, HearsEnd};
ghost use Rattle.streams.specs.Streams.{one_more};

use crate::failed::Failed;
use crate::listener::Listener;
use crate::read_buffer::ReadBuffer;
use crate::session_error::SessionError;
use crate::sink::Sink;
use crate::source::Source;
use memchr::memchr;

/// The maximum number of bytes of an input that are read.
const READABLE: u64 = 9_223_372_036_854_775_808;

/// Passes the lines of an input to the listener through a buffer, until the listener or the input ends. A line is
/// passed before more is read. Only the first 2^63 bytes of an input are read.
///
/// # Errors
///
/// `ReadFailed` if a read fails and `WriteFailed` if the listener's write fails; either ends the loop.
pub fn hear_input<L: Listener, R: Source, W: Sink, const N: usize>(
    listener: &mut L,
    buffer: &mut ReadBuffer<N>,
    r: &mut R,
    w: &mut W,
) -> Result<(), SessionError>
    requires some { 0 < N }
    requires begun { (before : List ℕ) → W.taken w.old ≡ Some before → L.goes listener.old listener.old before [] (W.taken w.old) }
    ensures told { (input before : List ℕ) → buffered buffer.old (R.left r.old) ≡ Some input → W.taken w.old ≡ Some before
        → HeardByResult (L.goes listener.new listener.old before)
        (λ last. L.ended last listener.new listener.old before) (λ last. L.broke last listener.new listener.old before)
        input (buffered buffer.new (R.left r.new)) (W.taken w.new) result }
    ensures fails { FailsByResult (R.failed r.old) (R.failed r.new) (W.failed w.old) (W.failed w.new) result }
    ensures no_memory { result ≡ Err SessionError.Memory → ⊥ }
    ensures room { length buffer.old < N → length buffer.new < N }
{
    let mut unread = READABLE;
    while unread > 0 {
        if buffer.fill(r).is_err() {
            return Err(SessionError::ReadFailed);
        }
        let bytes = front(buffer.ready(), unread);
        if bytes.is_empty() {
            return hear_end(listener, w);
        }
        let (n, heard) = hear_first(listener, bytes, w);
        buffer.consume(n);
        unread -= n as u64;
        match heard {
            Err(_) => return Err(SessionError::WriteFailed),
            Ok(true) => return Ok(()),
            Ok(false) => {}
        }
    }
    hear_end(listener, w)
}

/// The first bytes, at most `most`.
fn front(bytes: &[u8], most: u64) -> &[u8]
    ensures { result.now ≡ take most bytes.now }
{
    if bytes.len() as u64 <= most {
        bytes
    } else {
        &bytes[..most as usize]
    }
}

/// Passes the first line of the bytes to the listener, or lets it keep them all if no line ends in them. Returns the
/// number of bytes used, and whether the listener has ended.
fn hear_first<L: Listener, W: Sink>(
    listener: &mut L,
    bytes: &[u8],
    w: &mut W,
) -> (usize, Result<bool, Failed>)
    requires { 0 < length bytes.now }
    ensures some { 0 < result.0 }
    ensures within { result.0 ≤ length bytes.now }
    ensures on { result.1 ≡ Ok false → Hears (L.goes listener.old) (L.goes listener.new) (take result.0 bytes.now) (W.taken w.old) (W.taken w.new) }
    ensures over { result.1 ≡ Ok true → Hears (L.goes listener.old) (L.ended false listener.new) (take result.0 bytes.now) (W.taken w.old) (W.taken w.new) }
    ensures broken { OnErr result.1 (Hears (L.goes listener.old) (L.broke false listener.new) (take result.0 bytes.now) (W.taken w.old) (W.taken w.new)) }
    ensures ok { OnOk result.1 (W.failed w.new ≡ W.failed w.old) }
    ensures err { OnErr result.1 (W.failed w.new ≡ one_more (W.failed w.old)) }
{
    match memchr(b'\n', bytes) {
        Some(end) => (end + 1, listener.hear(&bytes[..end], w)),
        None => {
            listener.keep(bytes);
            (bytes.len(), Ok(false))
        }
    }
}

/// Tells the listener that the input has ended.
fn hear_end<L: Listener, W: Sink>(listener: &mut L, w: &mut W) -> Result<(), SessionError>
    ensures over { OnOk result (HearsEnd (L.goes listener.old) (L.ended true listener.new) (W.taken w.old) (W.taken w.new)) }
    ensures broken { OnErr result (HearsEnd (L.goes listener.old) (L.broke true listener.new) (W.taken w.old) (W.taken w.new)) }
    ensures cause { IfErr result (λ e. e ≡ SessionError.WriteFailed) }
    ensures ok { OnOk result (W.failed w.new ≡ W.failed w.old) }
    ensures err { OnErr result (W.failed w.new ≡ one_more (W.failed w.old)) }
{
    match listener.hear_end(w) {
        Ok(()) => Ok(()),
        Err(_) => Err(SessionError::WriteFailed),
    }
}
