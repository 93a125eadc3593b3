//! Letters of ASCII and blanks at the ends.
ghost use Rattle.std.specs.Prelude.{◌≡◌, IfOk, string_bytes};
ghost use Rattle.text_functions.specs.Letters as specs;

use std::alloc::{AllocError, Global};

/// The text with the letters `A` to `Z` in lower case; all other characters stay (`lowerAscii` of cel-go).
pub fn lower_ascii(alloc: Global, text: &str) -> Result<String, AllocError>
    ensures { IfOk result (λ t. string_bytes t ≡ specs.lower_ascii text.now) }
{
    text.chars().map(|c| c.to_ascii_lowercase()).collect(alloc)
}

/// The text with the letters `a` to `z` in upper case; all other characters stay (`upperAscii` of cel-go).
pub fn upper_ascii(alloc: Global, text: &str) -> Result<String, AllocError>
    ensures { IfOk result (λ t. string_bytes t ≡ specs.upper_ascii text.now) }
{
    text.chars().map(|c| c.to_ascii_uppercase()).collect(alloc)
}

/// The text without white space of Unicode at its ends (`trim` of cel-go; strings.TrimSpace).
pub fn trim(text: &str) -> &str
    ensures { result.now ≡ specs.trim_of text.now }
{
    text.trim()
}
