//! Names.

ghost use Rattle.std.specs.Prelude.{◌≡◌, IfOk, string_bytes, true};
ghost use Rattle.cel_tokens.specs.Bytes as bytes_of;
ghost use Rattle.cel_reader.specs.Words as specs;

use crate::role::{Role, role_of};
use cel_tokens::is_name;
use std::alloc::{AllocError, Global};

/// Whether the name may follow a dot (cel-spec, SELECTOR).
#[tactic(auto, unfolding(crate::specs::Words::role_of))]
pub fn is_selector(name: &[u8]) -> bool
    ensures { result ≡ specs.is_selector name.now }
{
    is_name(name) && matches!(role_of(name), Role::Reserved | Role::Plain)
}

/// Whether the name may be an identifier (cel-spec, IDENT).
#[tactic(auto, unfolding(crate::specs::Words::role_of))]
pub fn is_identifier(name: &[u8]) -> bool
    ensures { result ≡ specs.is_identifier name.now }
{
    is_name(name) && matches!(role_of(name), Role::Plain)
}

/// A copy of the name as a `String`.
#[tactic(auto, using(crate::proofs::Names::name_utf8))]
pub fn name_of(alloc: Global, name: &[u8]) -> Result<String, AllocError>
    requires { bytes_of.is_name name.now ≡ true }
    ensures { IfOk result (λ s. string_bytes s ≡ name.now) }
{
    String::from_str(alloc, std::str::from_utf8(name).unwrap())
}
