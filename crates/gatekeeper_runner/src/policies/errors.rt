//! Errors that imply nothing about a review.
ghost use Rattle.std.specs.Prelude.{◌≡◌, ◌≢◌, true, false};
ghost use Rattle.admission.specs.declared.run_error.RunError.TheVariants.{Memory};

use admission::RunError;

/// Whether an allocation failed.
pub fn is_memory(error: RunError) -> bool
    ensures yes { result ≡ true → error ≡ Memory }
    ensures no { result ≡ false → error ≢ Memory }
{
    matches!(error, RunError::Memory)
}
