//! Parts of a state that are read together.
ghost use Rattle.std.specs.Prelude.{◌≡◌, ◌++◌, ◌⊎◌, ◌∷◌, [], Err, IfErr, IfOk, IsOkAnd};
ghost use Rattle.cluster_state.specs.declared.state_error.StateError.TheVariants.{Memory};

use crate::state_error::StateError;

/// The items with one more, if it was read.
pub(crate) fn appended<T: Drop>(
    mut items: Vec<T>,
    item: Result<T, StateError>,
) -> Result<Vec<T>, StateError>
    ensures added { IfOk result (λ v. IsOkAnd item (λ x. v.items ≡ items.items ++ x ∷ [])) }
    ensures refused { IfErr result (λ e. (e ≡ Memory) ⊎ (item ≡ Err e)) }
{
    match item {
        Ok(item) => match items.push(item) {
            Ok(()) => Ok(items),
            Err(_refused) => {
                drop(items);
                Err(StateError::Memory)
            }
        },
        Err(error) => {
            drop(items);
            Err(error)
        }
    }
}
