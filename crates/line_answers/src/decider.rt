//! What decides lines.
ghost use Rattle.std.specs.Prelude.{◌≡◌, ℕ, List, IfOk};

use std::alloc::AllocError;

/// Decides lines, each by itself. No line changes it.
pub trait Decider {
    /// The texts that may be answered to a line that is read and is not blank.
    ghost decides: { Self → List ℕ → List ℕ → Type 0 };

    /// The text that is answered to a line that is too long to be read.
    ghost refuses: { Self → List ℕ };

    /// A text for a line, without a line feed.
    ///
    /// # Errors
    ///
    /// An allocation failed, which implies nothing about the line.
    fn answer(&self, line: &[u8]) -> Result<Vec<u8>, AllocError>
        ensures { IfOk result (λ text. decides self.now line.now text.items) };

    /// The text for a line that is too long, without a line feed.
    ///
    /// # Errors
    ///
    /// An allocation failed.
    fn refusal(&self) -> Result<Vec<u8>, AllocError>
        ensures { IfOk result (λ text. text.items ≡ refuses self.now) };
}
