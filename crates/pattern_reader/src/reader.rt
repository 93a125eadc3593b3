//! Reads the items of a pattern.

ghost use Rattle.std.specs.Prelude.{◌≡◌, ◌≤◌, ◌<◌, ◌^◌, ◌∷◌, [], length, drop, Some, None, IfOk, OnOk, if◌then◌else◌};
ghost use Rattle.pattern_reader.specs.Measures as measures;
ghost use Rattle.pattern_reader.specs.Shown.{frames_of, is_complete_at, StepsTo, ItemsReturn};

use crate::frame::{Frame, and_atom, inner_after, opened, whole};
use crate::item::{Item, is_close, is_open};
use crate::lexer::next_at;
use crate::place::{Place, place_after};
use crate::point::tail;
use crate::purpose::Purpose;
use std::alloc::{AllocError, Global};

/// The items that were read, and what decides whether the next one fits.
#[derive(Drop)]
pub struct Reader {
    pub items: Vec<Item>,
    /// The innermost open group.
    pub inner: Frame,
    /// The groups around it, from the outside.
    pub outer: Vec<Frame>,
    pub place: Place,
}

impl Reader {
    /// Nothing was read.
    fn new(alloc: Global) -> Reader
        ensures items { result.items.items ≡ [] }
        ensures inner { result.inner ≡ measures.opened }
        ensures outer { result.outer.items ≡ [] }
        ensures place { result.place ≡ Place.Outside }
    {
        Reader {
            items: Vec::new(alloc),
            inner: opened(),
            outer: Vec::new(alloc),
            place: Place::Outside,
        }
    }

    /// Whether no group and no brackets are open.
    fn is_complete(&self) -> bool
        ensures { result ≡ is_complete_at self.now }
    {
        self.outer.is_empty() && matches!(self.place, Place::Outside)
    }

    /// A group opens.
    fn open(&mut self) -> Result<(), AllocError>
        ensures frames { OnOk result (frames_of self.new
            ≡ record { inner = measures.opened; outer = self.old.inner ∷ (frames_of self.old).outer }) }
        ensures items { self.new.items ≡ self.old.items }
        ensures place { self.new.place ≡ self.old.place }
    {
        self.outer.push(self.inner)?;
        self.inner = opened();
        Ok(())
    }

    /// The innermost group closes, if there is one.
    fn close(&mut self) -> bool
        ensures frames { measures.closed self.old.inner (frames_of self.old).outer ≡ (if result then Some (frames_of self.new) else None) }
        ensures items { self.new.items ≡ self.old.items }
        ensures place { self.new.place ≡ self.old.place }
    {
        match self.outer.pop() {
            Some(around) => {
                self.inner = and_atom(whole(self.inner), around);
                true
            }
            None => false,
        }
    }

    /// An item that neither opens nor closes a group.
    fn go_on(&mut self, purpose: Purpose, item: Item) -> bool
        ensures frames { measures.with_inner (frames_of self.old).outer (measures.inner_after purpose item self.old.inner)
            ≡ (if result then Some (frames_of self.new) else None) }
        ensures items { self.new.items ≡ self.old.items }
        ensures place { self.new.place ≡ self.old.place }
    {
        match inner_after(purpose, item, self.inner) {
            Some(inner) => {
                self.inner = inner;
                true
            }
            None => false,
        }
    }

    /// Whether the item fits.
    fn accept(&mut self, purpose: Purpose, item: Item) -> Result<bool, AllocError>
        ensures frames { IfOk result (λ fits. measures.after_item purpose item (frames_of self.old)
            ≡ (if fits then Some (frames_of self.new) else None)) }
        ensures items { self.new.items ≡ self.old.items }
    {
        if is_open(item) {
            self.open()?;
            return Ok(true);
        }
        if is_close(item) {
            Ok(self.close())
        } else {
            Ok(self.go_on(purpose, item))
        }
    }

    /// Reads the item at this position. Returns its length if it fits.
    fn step(
        &mut self,
        purpose: Purpose,
        fold: bool,
        points: &[char],
        at: usize,
    ) -> Result<Option<usize>, AllocError>
        requires short { length points.now < 2 ^ 59 }
        requires within { at ≤ length points.now }
        ensures { IfOk result (StepsTo purpose fold (drop at points.now) self.old self.new) }
    {
        let Some((item, len)) = next_at(fold, self.place, tail(points, at)) else {
            return Ok(None);
        };
        if !self.accept(purpose, item)? {
            return Ok(None);
        }
        self.items.push(item)?;
        self.place = place_after(item);
        Ok(Some(len))
    }
}

/// The items of the pattern from this position on, or the position of the first that does not fit. `fold`: cases are
/// folded.
pub fn items(
    alloc: Global,
    points: &[char],
    from: usize,
    purpose: Purpose,
    fold: bool,
) -> Result<Result<Vec<Item>, usize>, AllocError>
    requires short { length points.now < 2 ^ 59 }
    requires within { from ≤ length points.now }
    ensures { IfOk result (ItemsReturn purpose fold from points.now) }
{
    let mut reader = Reader::new(alloc);
    let mut at = from;
    while at < points.len() {
        match reader.step(purpose, fold, points, at)? {
            Some(len) => at += len,
            None => return Ok(Err(at)),
        }
    }
    if reader.is_complete() {
        Ok(Ok(reader.items))
    } else {
        Ok(Err(at))
    }
}
