//! A vector that copies share until one of them grows.

ghost use Rattle.std.specs.Prelude.{◌≡◌, ◌≤◌, ◌<◌, ◌+◌, ◌^◌, [], ◌∷◌, ◌++◌, length, vec_len, vec_capacity, IfOk, IsOkAnd, OnOk, OnErr};
ghost use Rattle.std.specs.Borrow.{sem};
ghost use Rattle.shared_lists.specs.Items.{with_one};
ghost use Rattle.shared_lists.specs.Lending.{LendsItems, LendsOwned};

use std::alloc::{AllocError, Global};
use std::marker::Model;
use std::rc::Rc;

/// A vector that copies share until one of them grows.
#[derive(Drop)]
pub struct Backing<T: Copy> {
    items: Rc<Vec<T>>,
}

impl<T: Copy> Model for Backing<T> {
    ghost use Rattle.std.specs.Prelude.{List};

    ghost Value = { List T };

    ghost view = { λ b. b.items.value.items };
}

impl<T: Copy> Backing<T> {
    /// A vector without items.
    pub fn new(alloc: Global) -> Result<Backing<T>, AllocError>
        ensures { IfOk result (λ b. b ≡ []) }
    {
        Backing::of_vec(alloc, Ok(Vec::new(alloc)))
    }

    // A vector that was made before.
    fn of_vec(alloc: Global, items: Result<Vec<T>, AllocError>) -> Result<Backing<T>, AllocError>
        ensures { IfOk result (λ b. IsOkAnd items (λ v. b ≡ v.items)) }
    {
        let items = Rc::new(alloc, items?).ok().ok_or(AllocError)?;
        Ok(Backing { items })
    }

    /// The allocator.
    pub fn alloc(&self) -> Global {
        *self.items.allocator()
    }

    /// The items.
    pub fn items(&self) -> &[T]
        ensures value { result.now ≡ self.now }
        ensures short { length result.now < 2 ^ 63 }
    {
        &self.items[..]
    }

    /// The number of items.
    pub fn len(&self) -> usize
        ensures count { result ≡ length self.now }
        ensures short { result < 2 ^ 63 }
    {
        self.items.len()
    }

    // Makes this the sole owner of its vector. A new vector has capacity for `more` further items.
    #[inline(always)]
    fn own(&mut self, more: usize) -> Result<(), AllocError>
        ensures { self.new ≡ self.old }
    {
        if Rc::strong_count(&self.items) == 1 {
            return Ok(());
        }
        self.own_copy(more)
    }

    // Makes this the sole owner of a copy of its vector, apart so that the test is inlined.
    #[cold]
    #[inline(never)]
    fn own_copy(&mut self, more: usize) -> Result<(), AllocError>
        ensures { self.new ≡ self.old }
    {
        let alloc = *self.items.allocator();
        *self = Backing::of_vec(alloc, copied(alloc, &self.items[..], more))?;
        Ok(())
    }

    /// The vector, with capacity for `more` items after its last.
    pub fn room(&mut self, more: usize) -> Result<&mut Vec<T>, AllocError>
        ensures* lent { sem 𝓛 (LendsItems T.row self.entry result) }
        ensures items { IfOk result (λ v. v.now.items ≡ self.old) }
        ensures room { IfOk result (λ v. vec_len v.now + more ≤ vec_capacity v.now) }
    {
        self.own(more)?;
        owned(&mut self.items, more)
    }

    /// A new vector with the items of a slice.
    pub fn of(alloc: Global, items: &[T]) -> Result<Backing<T>, AllocError>
        ensures { IfOk result (λ b. b ≡ items.now) }
    {
        Backing::of_vec(alloc, copied(alloc, items, 0))
    }

    /// A new vector with the items of one slice followed by those of another.
    pub fn joined(alloc: Global, first: &[T], second: &[T]) -> Result<Backing<T>, AllocError>
        ensures { IfOk result (λ b. b ≡ first.now ++ second.now) }
    {
        let front = copied(alloc, first, second.len());
        Backing::of_vec(alloc, appended(front, second))
    }

    /// A new vector with the items of a slice and one more item at this place.
    pub fn with_item(
        alloc: Global,
        items: &[T],
        place: usize,
        item: T,
    ) -> Result<Backing<T>, AllocError>
        requires { place ≤ length items.now }
        ensures { IfOk result (λ b. b ≡ with_one place item items.now) }
    {
        let front = with_last(copied(alloc, &items[..place], items.len()), item);
        Backing::of_vec(alloc, appended(front, &items[place..]))
    }

    /// Appends items.
    pub fn extend(&mut self, more: &[T]) -> Result<(), AllocError>
        ensures ok { OnOk result (self.new ≡ self.old ++ more.now) }
        ensures err { OnErr result (self.new ≡ self.old) }
    {
        self.own(more.len())?;
        append(&mut self.items, more)
    }
}

// Appends items to the vector, if nobody else shares it.
fn append<T: Copy>(items: &mut Rc<Vec<T>>, more: &[T]) -> Result<(), AllocError>
    ensures ok { OnOk result (items.new.value.items ≡ items.old.value.items ++ more.now) }
    ensures err { OnErr result (items.new.value.items ≡ items.old.value.items) }
{
    match Rc::get_mut(items) {
        Some(items) => {
            items.extend_from_slice(more)?;
            Ok(())
        }
        None => Err(AllocError),
    }
}

// The vector, if nobody else shares it, with capacity for `more` items.
fn owned<T>(items: &mut Rc<Vec<T>>, more: usize) -> Result<&mut Vec<T>, AllocError>
    ensures* lent { sem 𝓛 (LendsOwned T.row items.entry result) }
    ensures items { IfOk result (λ v. v.now.items ≡ items.old.value.items) }
    ensures room { IfOk result (λ v. vec_len v.now + more ≤ vec_capacity v.now) }
{
    match Rc::get_mut(items) {
        Some(items) => {
            items.reserve(more)?;
            Ok(items)
        }
        None => Err(AllocError),
    }
}

fn copied<T: Copy>(alloc: Global, items: &[T], more: usize) -> Result<Vec<T>, AllocError>
    ensures { IfOk result (λ v. v.items ≡ items.now) }
{
    let mut copy = Vec::with_capacity(alloc, items.len().saturating_add(more))?;
    copy.extend_from_slice(items)?;
    Ok(copy)
}

// The items of a vector that was made before, followed by more.
fn appended<T: Copy>(items: Result<Vec<T>, AllocError>, more: &[T]) -> Result<Vec<T>, AllocError>
    ensures { IfOk result (λ v. IsOkAnd items (λ u. v.items ≡ u.items ++ more.now)) }
{
    let mut all = items?;
    match all.extend_from_slice(more) {
        Ok(()) => Ok(all),
        Err(error) => {
            drop(all);
            Err(error)
        }
    }
}

// The items of a vector that was made before, and one more.
fn with_last<T: Copy>(items: Result<Vec<T>, AllocError>, item: T) -> Result<Vec<T>, AllocError>
    ensures { IfOk result (λ v. IsOkAnd items (λ u. v.items ≡ u.items ++ item ∷ [])) }
{
    let mut all = items?;
    match all.push(item) {
        Ok(()) => Ok(all),
        Err(_refused) => {
            drop(all);
            Err(AllocError)
        }
    }
}

impl<T: Copy> Clone for Backing<T> {
    ghost is_clone = { λ b copy. copy ≡ b };

    fn clone(&self) -> Result<Backing<T>, AllocError> {
        Ok(Backing {
            items: self.items.clone()?,
        })
    }
}
