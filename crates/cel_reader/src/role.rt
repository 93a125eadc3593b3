//! The roles of names.

ghost use Rattle.std.specs.Prelude.{◌≡◌, true};
ghost use Rattle.cel_reader.specs.Words as specs;

/// The role of a name.
#[derive(Clone, Copy, Debug, PartialEq, Eq)]
pub enum Role {
    /// The literal `true`.
    True,
    /// The literal `false`.
    False,
    /// The literal `null`.
    Null,
    /// The operator `in`.
    In,
    /// A reserved word, which may only name a field (cel-spec, RESERVED).
    Reserved,
    /// Any other name.
    Plain,
}

/// Whether the name is reserved (cel-spec, RESERVED).
#[tactic(auto, unfolding(crate::specs::Words::is_reserved))]
fn is_reserved(name: &[u8]) -> bool
    ensures { result ≡ specs.is_reserved name.now }
{
    name == b"as".as_slice()
        || name == b"break".as_slice()
        || name == b"const".as_slice()
        || name == b"continue".as_slice()
        || name == b"else".as_slice()
        || name == b"for".as_slice()
        || name == b"function".as_slice()
        || name == b"if".as_slice()
        || name == b"import".as_slice()
        || name == b"let".as_slice()
        || name == b"loop".as_slice()
        || name == b"package".as_slice()
        || name == b"namespace".as_slice()
        || name == b"return".as_slice()
        || name == b"var".as_slice()
        || name == b"void".as_slice()
        || name == b"while".as_slice()
}

/// The role of the name.
#[tactic(auto, unfolding(crate::specs::Words::role_of))]
pub fn role_of(name: &[u8]) -> Role
    ensures { result ≡ specs.role_of name.now }
{
    match name {
        b"true" => Role::True,
        b"false" => Role::False,
        b"null" => Role::Null,
        b"in" => Role::In,
        _ => {
            if is_reserved(name) {
                Role::Reserved
            } else {
                Role::Plain
            }
        }
    }
}
