//! Parses values without keeping them.

ghost use Rattle.std.specs.Prelude.{◌≡◌, ◌≤◌, ◌<◌, ◌∷◌, length, None, IfOk, OnOk, OnErr};
ghost use Rattle.json.specs.Json.{value, items, members};
ghost use Rattle.json.specs.Reads.{token_of};
ghost use Rattle.serde_json.specs.Data.{no_members};
ghost use Rattle.serde_json.specs.Read.{of_json, of_items, of_members, converted};
ghost use Rattle.review_tables.specs.Reading.{LeavesTokens};

use crate::numbers::number;
use json::{Invalid, Reader, Token};

/// Reads the next value of the reader and drops it. Nothing is allocated.
#[cycle(check_value)]
pub fn check_value(reader: &mut Reader<'_>, depth: usize) -> Result<(), Invalid>
    ensures read { OnOk result (LeavesTokens (converted of_json (value depth reader.old)) reader.new) }
    ensures shorter { OnOk result (length reader.new < length reader.old) }
    ensures refused { OnErr result (converted of_json (value depth reader.old) ≡ None) }
{
    let token = reader.next().ok_or(Invalid)?;
    check_token(reader, token, depth)
}

/// Reads the rest of a value after its first token.
#[cycle(check_value)]
pub fn check_token(reader: &mut Reader<'_>, token: Token<'_>, depth: usize) -> Result<(), Invalid>
    ensures read { OnOk result (LeavesTokens (converted of_json (value depth (token_of token.entry ∷ reader.old))) reader.new) }
    ensures shorter { OnOk result (length reader.new ≤ length reader.old) }
    ensures refused { OnErr result (converted of_json (value depth (token_of token.entry ∷ reader.old)) ≡ None) }
{
    match token {
        Token::Number(text) => match number(text) {
            Some(_) => Ok(()),
            None => Err(Invalid),
        },
        Token::String(_text) => Ok(()),
        Token::Bool(_truth) => Ok(()),
        Token::Null => Ok(()),
        Token::EndObject | Token::EndArray | Token::Key(_) | Token::Bad => Err(Invalid),
        Token::BeginArray => {
            if depth == 0 {
                return Err(Invalid);
            }
            check_items(reader, depth - 1)
        }
        Token::BeginObject => {
            if depth == 0 {
                return Err(Invalid);
            }
            check_members(reader, depth - 1)
        }
    }
}

#[cycle(check_value)]
fn check_items(reader: &mut Reader<'_>, depth: usize) -> Result<(), Invalid>
    ensures read { OnOk result (LeavesTokens (converted of_items (items (value depth) (length reader.old) reader.old)) reader.new) }
    ensures shorter { OnOk result (length reader.new < length reader.old) }
    ensures refused { OnErr result (converted of_items (items (value depth) (length reader.old) reader.old) ≡ None) }
{
    'items: while !reader.take_end_array() {
        check_value(reader, depth)?;
    }
    Ok(())
}

#[cycle(check_value)]
fn check_members(reader: &mut Reader<'_>, depth: usize) -> Result<(), Invalid>
    ensures read { OnOk result (LeavesTokens (converted (λ ms. of_members ms no_members) (members (value depth) (length reader.old) reader.old)) reader.new) }
    ensures shorter { OnOk result (length reader.new < length reader.old) }
    ensures refused { OnErr result (converted (λ ms. of_members ms no_members) (members (value depth) (length reader.old) reader.old) ≡ None) }
{
    'members: while let Some(_key) = reader.next_key()? {
        check_value(reader, depth)?;
    }
    Ok(())
}
