//! Results of allocations together.

ghost use Rattle.std.specs.Prelude.{◌≡◌, ◌++◌, ◌∷◌, [], IfOk, IsOkAnd, Ok};

use std::alloc::AllocError;

/// Two results.
pub(crate) fn both<A: Drop, B: Drop>(
    first: Result<A, AllocError>,
    second: Result<B, AllocError>,
) -> Result<(A, B), AllocError>
    ensures { IfOk result (λ x. (first ≡ Ok x.0) × (second ≡ Ok x.1)) }
{
    Ok((first?, second?))
}

/// The items with one more.
pub(crate) fn appended<T: Drop>(
    mut items: Vec<T>,
    item: Result<T, AllocError>,
) -> Result<Vec<T>, AllocError>
    ensures { IfOk result (λ v. IsOkAnd item (λ x. v.items ≡ items.items ++ x ∷ [])) }
{
    match item {
        Ok(item) => match items.push(item) {
            Ok(()) => Ok(items),
            Err(_refused) => {
                drop(items);
                Err(AllocError)
            }
        },
        Err(error) => {
            drop(items);
            Err(error)
        }
    }
}
