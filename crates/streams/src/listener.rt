//! Listeners of an input's lines.
ghost use Rattle.std.specs.Prelude.{◌≡◌, ◌++◌, ◌∷◌, [], ℕ, Bool, true, false, List, Option, Ok, OnErr, OnOk};
ghost use Rattle.streams.specs.Hearing.{HasNoFeed, Hears, HearsEnd};
ghost use Rattle.streams.specs.Streams.{one_more};

use crate::failed::Failed;
use crate::sink::Sink;

/// Hears the lines of an input and writes to a sink. A line that was read in one piece is passed in one call of
/// `hear`. Otherwise `keep` gets its first parts before that. The ghost members state what holds of the listener,
/// from its state before the input, the bytes written before, the bytes heard since, and all bytes written.
pub trait Listener {
    /// The listener continues.
    ghost goes: { Self → Self → List ℕ → List ℕ → Option (List ℕ) → Type 0 };

    /// The listener has ended: at the input's end if the `Bool` is true, else at a line.
    ghost ended: { Bool → Self → Self → List ℕ → List ℕ → Option (List ℕ) → Type 0 };

    /// A write has failed: at the input's end if the `Bool` is true, else at a line.
    ghost broke: { Bool → Self → Self → List ℕ → List ℕ → Option (List ℕ) → Type 0 };

    /// Keeps a part of a line, which contains no line feed.
    fn keep(&mut self, part: &[u8])
        requires { HasNoFeed part.now }
        ensures { (written : Option (List ℕ)) → Hears (goes self.old) (goes self.new) part.now written written };

    /// Hears the rest of a line after the parts that were kept, without its line feed.
    /// Returns whether the listener has ended.
    fn hear<W: Sink>(&mut self, rest: &[u8], w: &mut W) -> Result<bool, Failed>
        requires { HasNoFeed rest.now }
        ensures on { result ≡ Ok false → Hears (goes self.old) (goes self.new) (rest.now ++ 10 ∷ []) (W.taken w.old) (W.taken w.new) }
        ensures over { result ≡ Ok true → Hears (goes self.old) (ended false self.new) (rest.now ++ 10 ∷ []) (W.taken w.old) (W.taken w.new) }
        ensures broken { OnErr result (Hears (goes self.old) (broke false self.new) (rest.now ++ 10 ∷ []) (W.taken w.old) (W.taken w.new)) }
        ensures ok { OnOk result (W.failed w.new ≡ W.failed w.old) }
        ensures err { OnErr result (W.failed w.new ≡ one_more (W.failed w.old)) };

    /// Hears that the input has ended. The parts that were kept are the last line.
    fn hear_end<W: Sink>(&mut self, w: &mut W) -> Result<(), Failed>
        ensures over { OnOk result (HearsEnd (goes self.old) (ended true self.new) (W.taken w.old) (W.taken w.new)) }
        ensures broken { OnErr result (HearsEnd (goes self.old) (broke true self.new) (W.taken w.old) (W.taken w.new)) }
        ensures ok { OnOk result (W.failed w.new ≡ W.failed w.old) }
        ensures err { OnErr result (W.failed w.new ≡ one_more (W.failed w.old)) };
}
