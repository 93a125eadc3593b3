//! The items of lists.

ghost use Rattle.std.specs.Prelude.{◌≡◌, ◌<◌, ◌≤◌, ◌+◌, ◌^◌, [], ◌∷◌, ◌++◌, length, IfOk, OnOk, OnErr, slice_index_or, slice_set};
ghost use Rattle.shared_lists.specs.Pool.{rows_items, AreRows};
ghost use Rattle.shared_lists.specs.Items.{refs_at, with_one, HoldsItems, ExtendsLists};

use crate::backing::Backing;
use crate::room::fill;
use crate::row::{Row, extend, items, shared};
use crate::small_number::small;
use std::alloc::{AllocError, Global};
use std::marker::Model;
use std::rc::Rc;

/// The items of lists, in rows. Copies share the rows and the pool until one of them grows.
#[derive(Drop)]
pub struct Lists {
    rows: Rc<Vec<Row>>,
    /// The items of the rows without a vector: those that came from documents, and none.
    pool: Backing<u32>,
}

impl Model for Lists {
    ghost use Rattle.std.specs.Prelude.{List, ℕ};
    ghost use Rattle.shared_lists.specs.Pool.{rows_items, AreRows};

    ghost Value = { List (List ℕ) };

    ghost view = { λ l. rows_items l.pool l.rows.value.items };

    ghost invariant = { λ l. AreRows l.pool l.rows.value.items };
}

impl Lists {
    /// No rows.
    pub fn new(alloc: Global) -> Result<Lists, AllocError>
        ensures { IfOk result (λ b. b ≡ []) }
    {
        let rows = Rc::new(alloc, Vec::new(alloc)).ok().ok_or(AllocError)?;
        let pool = Backing::new(alloc)?;
        Ok(Lists { rows, pool })
    }

    /// The allocator.
    pub fn alloc(&self) -> Global {
        *self.rows.allocator()
    }

    /// The number of rows.
    pub fn len(&self) -> usize
        ensures { result ≡ length self.now }
    {
        self.rows.len()
    }

    /// The items of a row, if there is one.
    #[inline(always)]
    pub fn items(&self, row: u64) -> &[u32]
        ensures value { result.now ≡ slice_index_or self.now row [] }
        ensures short { length result.now < 2 ^ 63 }
    {
        items_at(self.pool.items(), &self.rows[..], row as usize)
    }

    /// The items of a row as a vector.
    pub fn shared(&self, row: u64) -> Result<Backing<u32>, AllocError>
        requires { row < length self.now }
        ensures { IfOk result (λ b. b ≡ slice_index_or self.now row []) }
    {
        let place = row as usize;
        shared_at(self.alloc(), self.pool.items(), &self.rows[..], place)
    }

    /// Reserves capacity for this number of rows in the pool, and of their items.
    pub fn reserve(&mut self, rows: usize, items: usize) -> Result<(), AllocError>
        ensures { self.new ≡ self.old }
    {
        let _pool = self.pool.room(items)?;
        reserve_rows(&mut self.rows, rows)
    }

    /// Adds a row with a vector.
    pub fn push(&mut self, backing: Backing<u32>) -> Result<(), AllocError>
        ensures ok { OnOk result (self.new ≡ self.old ++ backing ∷ []) }
        ensures err { OnErr result (self.new ≡ self.old) }
    {
        add_row(&mut self.rows, Row::Own(backing))
    }

    /// Adds a row without items.
    pub fn add_empty(&mut self) -> Result<(), AllocError>
        ensures ok { OnOk result (self.new ≡ self.old ++ [] ∷ []) }
        ensures err { OnErr result (self.new ≡ self.old) }
    {
        add_row(&mut self.rows, Row::Pooled(0, 0))
    }

    /// Adds a row whose items are appended to the pool.
    pub fn add(&mut self, items: &[u32]) -> Result<(), AllocError>
        ensures ok { OnOk result (self.new ≡ self.old ++ items.now ∷ []) }
        ensures err { OnErr result (self.new ≡ self.old) }
    {
        put(&mut self.pool, &mut self.rows, items)
    }

    /// Appends an item to a row.
    pub(crate) fn push_item(&mut self, row: usize, item: u32) -> Result<(), AllocError>
        requires { row < length self.old }
        ensures ok { OnOk result (self.new ≡ slice_set self.old row (slice_index_or self.old row [] ++ item ∷ [])) }
        ensures err { OnErr result (self.new ≡ self.old) }
    {
        self.push_items(row, &[item])
    }

    /// Appends items to a row.
    pub fn push_items(&mut self, row: usize, items: &[u32]) -> Result<(), AllocError>
        requires { row < length self.old }
        ensures ok { OnOk result (self.new ≡ slice_set self.old row (slice_index_or self.old row [] ++ items.now)) }
        ensures err { OnErr result (self.new ≡ self.old) }
    {
        let alloc = self.alloc();
        extend_at(alloc, self.pool.items(), &mut self.rows, row, items)
    }

    /// A row with the first `count` items of another and then `item`. It is the same row if that has
    /// no further items, else a new one.
    pub fn push_after(&mut self, row: u32, count: u32, item: u32) -> Result<u32, AllocError>
        requires inside { row < length self.old }
        requires long { count ≤ length (slice_index_or self.old row []) }
        ensures grown { ExtendsLists self.old self.new }
        ensures items { IfOk result (λ b. HoldsItems self.new b (count + 1) (refs_at self.old row count ++ item ∷ [])) }
        ensures shared { count ≡ length (slice_index_or self.old row []) → IfOk result (λ b. (b ≡ row) × (length self.new ≡ length self.old)) }
        ensures kept { OnErr result (self.new ≡ self.old) }
    {
        let held = self.items(row as u64);
        if held.len() == count as usize {
            self.push_item(row as usize, item)?;
            return Ok(row);
        }
        let copy = Backing::joined(self.alloc(), &held[..count as usize], &[item])?;
        let new = small(self.len())?;
        self.push(copy)?;
        Ok(new)
    }

    /// A row with the first items of another and one more item at this place. It is the same row if
    /// that has no further items, else a new one.
    pub fn put_item(
        &mut self,
        row: u32,
        count: u32,
        place: usize,
        item: u32,
    ) -> Result<u32, AllocError>
        requires inside { row < length self.old }
        requires long { count ≤ length (slice_index_or self.old row []) }
        requires place { place ≤ count }
        ensures grown { ExtendsLists self.old self.new }
        ensures items { IfOk result (λ b. HoldsItems self.new b (count + 1) (with_one place item (refs_at self.old row count))) }
        ensures kept { OnErr result (self.new ≡ self.old) }
    {
        let items = self.items(row as u64);
        if place == count as usize && items.len() == place {
            self.push_item(row as usize, item)?;
            return Ok(row);
        }
        let items = &items[..count as usize];
        let more = Backing::with_item(self.alloc(), items, place, item)?;
        let new = small(self.len())?;
        self.push(more)?;
        Ok(new)
    }
}

#[inline(always)]
fn items_at<'a>(pool: &'a [u32], rows: &'a [Row], place: usize) -> &'a [u32]
    requires { AreRows pool.now rows.now }
    ensures { result.now ≡ slice_index_or (rows_items pool.now rows.now) place [] }
{
    match rows.get(place) {
        Some(row) => items(pool, row),
        None => &[],
    }
}

fn shared_at(
    alloc: Global,
    pool: &[u32],
    rows: &[Row],
    place: usize,
) -> Result<Backing<u32>, AllocError>
    requires rows { AreRows pool.now rows.now }
    requires inside { place < length rows.now }
    ensures { IfOk result (λ b. b ≡ slice_index_or (rows_items pool.now rows.now) place []) }
{
    shared(alloc, pool, &rows[place])
}

// Appends items to the pool, and adds the row that holds them.
fn put(pool: &mut Backing<u32>, rows: &mut Rc<Vec<Row>>, items: &[u32]) -> Result<(), AllocError>
    requires { AreRows pool.old rows.old.value.items }
    ensures rows { AreRows pool.new rows.new.value.items }
    ensures ok { OnOk result (rows_items pool.new rows.new.value.items ≡ rows_items pool.old rows.old.value.items ++ items.now ∷ []) }
    ensures err { OnErr result (rows_items pool.new rows.new.value.items ≡ rows_items pool.old rows.old.value.items) }
{
    let from = small(pool.len())?;
    let count = small(items.len())?;
    let room = pool.room(items.len())?;
    add_row(rows, Row::Pooled(from, count))?;
    fill(room, items);
    Ok(())
}

fn reserve_rows(rows: &mut Rc<Vec<Row>>, more: usize) -> Result<(), AllocError>
    ensures { rows.new.value.items ≡ rows.old.value.items }
{
    let rows = Rc::make_mut(rows)?;
    rows.reserve(more)
}

fn add_row(rows: &mut Rc<Vec<Row>>, row: Row) -> Result<(), AllocError>
    ensures ok { OnOk result (rows.new.value.items ≡ rows.old.value.items ++ row ∷ []) }
    ensures err { OnErr result (rows.new.value.items ≡ rows.old.value.items) }
{
    let rows = Rc::make_mut(rows)?;
    rows.push(row)?;
    Ok(())
}

fn extend_at(
    alloc: Global,
    pool: &[u32],
    rows: &mut Rc<Vec<Row>>,
    place: usize,
    items: &[u32],
) -> Result<(), AllocError>
    requires rows { AreRows pool.now rows.old.value.items }
    requires inside { place < length rows.old.value.items }
    ensures rows { AreRows pool.now rows.new.value.items }
    ensures ok { let before = rows_items pool.now rows.old.value.items in
        OnOk result (rows_items pool.now rows.new.value.items ≡ slice_set before place (slice_index_or before place [] ++ items.now)) }
    ensures err { OnErr result (rows_items pool.now rows.new.value.items ≡ rows_items pool.now rows.old.value.items) }
{
    let rows = Rc::make_mut(rows)?;
    extend_in(alloc, pool, rows, place, items)
}

fn extend_in(
    alloc: Global,
    pool: &[u32],
    rows: &mut Vec<Row>,
    place: usize,
    items: &[u32],
) -> Result<(), AllocError>
    requires rows { AreRows pool.now rows.old.items }
    requires inside { place < length rows.old.items }
    ensures rows { AreRows pool.now rows.new.items }
    ensures ok { OnOk result (rows_items pool.now rows.new.items ≡ slice_set (rows_items pool.now rows.old.items) place (slice_index_or (rows_items pool.now rows.old.items) place [] ++ items.now)) }
    ensures err { OnErr result (rows.new.items ≡ rows.old.items) }
{
    extend(alloc, pool, &mut rows[place], items)
}

impl Clone for Lists {
    ghost is_clone = { λ b copy. copy ≡ b };

    fn clone(&self) -> Result<Lists, AllocError> {
        Ok(Lists {
            rows: self.rows.clone()?,
            pool: self.pool.clone()?,
        })
    }
}
