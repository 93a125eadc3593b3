//! Where the items of a list are stored.

ghost use Rattle.std.specs.Prelude.{◌≡◌, ◌++◌, IfOk, OnOk, OnErr};
ghost use Rattle.shared_lists.specs.Pool.{row_items, IsPoolRow};

use crate::backing::Backing;
use std::alloc::{AllocError, Global};

/// The items of a list, or the values of a map's entries.
#[derive(Drop)]
pub(crate) enum Row {
    /// They are in their own vector, which can grow.
    Own(Backing<u32>),
    /// They are a range of the pool: the first place, and the number.
    Pooled(u32, u32),
}

/// The items of a row.
#[inline(always)]
pub(crate) fn items<'a>(pool: &'a [u32], row: &'a Row) -> &'a [u32]
    requires { IsPoolRow pool.now row.now }
    ensures { result.now ≡ row_items pool.now row.now }
{
    match row {
        Row::Own(items) => items.items(),
        Row::Pooled(from, count) => &pool[*from as usize..*from as usize + *count as usize],
    }
}

/// The items of a row as a vector: its own one, shared, or a copy of its range of the pool.
pub(crate) fn shared(alloc: Global, pool: &[u32], row: &Row) -> Result<Backing<u32>, AllocError>
    requires { IsPoolRow pool.now row.now }
    ensures { IfOk result (λ b. b ≡ row_items pool.now row.now) }
{
    match row {
        Row::Own(items) => items.clone(),
        Row::Pooled(_, _) => Backing::of(alloc, items(pool, row)),
    }
}

/// Appends items to a row. A row in the pool gets its own vector first.
pub(crate) fn extend(
    alloc: Global,
    pool: &[u32],
    row: &mut Row,
    more: &[u32],
) -> Result<(), AllocError>
    requires { IsPoolRow pool.now row.old }
    ensures row { IsPoolRow pool.now row.new }
    ensures ok { OnOk result (row_items pool.now row.new ≡ row_items pool.now row.old ++ more.now) }
    ensures err { OnErr result (row.new ≡ row.old) }
{
    match row {
        Row::Own(items) => items.extend(more),
        Row::Pooled(from, count) => {
            let items = &pool[*from as usize..*from as usize + *count as usize];
            *row = Row::Own(Backing::joined(alloc, items, more)?);
            Ok(())
        }
    }
}

impl Clone for Row {
    ghost is_clone = { λ row copy. copy ≡ row };

    fn clone(&self) -> Result<Row, AllocError> {
        match self {
            Row::Own(items) => Ok(Row::Own(items.clone()?)),
            Row::Pooled(from, count) => Ok(Row::Pooled(*from, *count)),
        }
    }
}
