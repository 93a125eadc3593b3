//! The innermost open group of a pattern, or the whole pattern, while it is read.

ghost use Rattle.std.specs.Prelude.{◌≡◌};
ghost use Rattle.pattern_reader.specs.Measures as measures;

use crate::item::Item;
use crate::measure::{Measure, alternatives, joined, repeated, unit};
use crate::purpose::Purpose;
use crate::repeat::Repeat;

/// An open group, or the whole pattern.
#[derive(Clone, Copy)]
pub struct Frame {
    /// The alternatives before the last `|`.
    pub before: Option<Measure>,
    /// What was read after that.
    pub so_far: Measure,
    /// The atom at the end, which may still be repeated.
    pub atom: Option<Measure>,
}

/// Nothing was read.
pub fn opened() -> Frame
    ensures { result ≡ measures.opened }
{
    Frame {
        before: None,
        so_far: unit(true),
        atom: None,
    }
}

/// The last alternative.
fn last_of(frame: Frame) -> Measure
    ensures { result ≡ measures.last_of frame }
{
    match frame.atom {
        None => frame.so_far,
        Some(atom) => joined(frame.so_far, atom),
    }
}

/// All alternatives.
pub fn whole(frame: Frame) -> Measure
    ensures { result ≡ measures.whole frame }
{
    let last = last_of(frame);
    match frame.before {
        None => last,
        Some(before) => alternatives(before, last),
    }
}

/// One more atom.
pub fn and_atom(atom: Measure, frame: Frame) -> Frame
    ensures { result ≡ measures.and_atom atom frame }
{
    Frame {
        before: frame.before,
        so_far: last_of(frame),
        atom: Some(atom),
    }
}

/// One more place in the text.
fn and_edge(frame: Frame) -> Frame
    ensures { result ≡ measures.and_edge frame }
{
    Frame {
        before: frame.before,
        so_far: joined(last_of(frame), unit(true)),
        atom: None,
    }
}

/// Another alternative begins.
fn and_bar(frame: Frame) -> Frame
    ensures { result ≡ measures.and_bar frame }
{
    Frame {
        before: Some(whole(frame)),
        so_far: unit(true),
        atom: None,
    }
}

/// The atom at the end is repeated.
fn and_repeat(purpose: Purpose, repeat: Repeat, frame: Frame) -> Option<Frame>
    ensures { result ≡ measures.and_repeat purpose repeat frame frame.atom }
{
    let atom = repeated(purpose, repeat, frame.atom?)?;
    Some(Frame {
        before: frame.before,
        so_far: joined(frame.so_far, atom),
        atom: None,
    })
}

/// The frame after an item that neither opens nor closes a group.
pub fn inner_after(purpose: Purpose, item: Item, frame: Frame) -> Option<Frame>
    ensures { result ≡ measures.inner_after purpose item frame }
{
    match item {
        Item::Literal(_) | Item::Any | Item::Named(_, _) | Item::OpenBracket(_) => Some(and_atom(
            unit(false),
            frame,
        )),
        Item::Start | Item::End | Item::Boundary => Some(and_edge(frame)),
        Item::Bar => Some(and_bar(frame)),
        Item::Repeat(repeat) => and_repeat(purpose, repeat, frame),
        Item::Open | Item::Close | Item::Range(_, _) | Item::Member(_) | Item::CloseBracket => Some(
            frame,
        ),
    }
}
