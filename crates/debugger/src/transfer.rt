//! Writes replies to a sink.
ghost use Rattle.std.specs.Prelude.{◌≡◌, ◌<◌, ◌++◌, ◌∷◌, [], ℕ, length, take, OnErr, OnOk};
ghost use Rattle.debugger.specs.Replies.{reply_text};
ghost use Rattle.streams.specs.Streams.{one_more, AddsBytes};

use crate::reply::Reply;
use streams::{Failed, Sink, write_all};

/// Writes a whole reply, or its bytes before a write that fails or takes no byte.
pub fn write_reply<W: Sink>(w: &mut W, reply: &Reply) -> Result<(), Failed>
    ensures whole { OnOk result (AddsBytes (W.taken w.old) (W.taken w.new) (reply_text reply.now)) }
    ensures ok { OnOk result (W.failed w.new ≡ W.failed w.old) }
    ensures part { OnErr result ((n : ℕ) × (n < length (reply_text reply.now)) × AddsBytes (W.taken w.old) (W.taken w.new) (take n (reply_text reply.now))) }
    ensures err { OnErr result (W.failed w.new ≡ one_more (W.failed w.old)) }
{
    match reply {
        Reply::Fixed(text) => write_all(w, text),
        Reply::Text(text) => write_all(w, text.as_slice()),
        Reply::Lines(lines) => write_all(w, lines.as_bytes()),
        Reply::Value(head, json) => write_line(w, head.as_slice(), json.as_bytes()),
    }
}

/// Writes a line that consists of two parts.
fn write_line<W: Sink>(w: &mut W, head: &[u8], rest: &[u8]) -> Result<(), Failed>
    ensures whole { OnOk result (AddsBytes (W.taken w.old) (W.taken w.new) (head.now ++ (rest.now ++ 10 ∷ []))) }
    ensures ok { OnOk result (W.failed w.new ≡ W.failed w.old) }
    ensures part { OnErr result ((n : ℕ) × (n < length (head.now ++ (rest.now ++ 10 ∷ []))) × AddsBytes (W.taken w.old) (W.taken w.new) (take n (head.now ++ (rest.now ++ 10 ∷ [])))) }
    ensures err { OnErr result (W.failed w.new ≡ one_more (W.failed w.old)) }
{
    write_all(w, head)?;
    write_all(w, rest)?;
    write_all(w, b"\n")
}
