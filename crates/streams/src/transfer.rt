//! Writes whole texts to a sink.
ghost use Rattle.std.specs.Prelude.{◌≡◌, ◌<◌, ℕ, length, take, OnErr, OnOk};
ghost use Rattle.streams.specs.Streams.{one_more, AddsBytes};

use crate::failed::Failed;
use crate::sink::Sink;

/// Writes all the bytes, or those before a write that fails or takes no byte.
pub fn write_all<W: Sink>(w: &mut W, bytes: &[u8]) -> Result<(), Failed>
    ensures whole { OnOk result (AddsBytes (W.taken w.old) (W.taken w.new) bytes.now) }
    ensures ok { OnOk result (W.failed w.new ≡ W.failed w.old) }
    ensures part { OnErr result ((n : ℕ) × (n < length bytes.now) × AddsBytes (W.taken w.old) (W.taken w.new) (take n bytes.now)) }
    ensures err { OnErr result (W.failed w.new ≡ one_more (W.failed w.old)) }
{
    let mut at = 0;
    while at < bytes.len() {
        let n = w.write(&bytes[at..])?;
        if n == 0 {
            return Err(Failed);
        }
        at += n;
    }
    Ok(())
}
