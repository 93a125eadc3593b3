//! Reads values token by token, and keeps of them what is at each level.
ghost use Rattle.std.specs.Prelude.{◌≡◌, ◌<◌, length, Err, None, IfOk, OnOk, option_map};
ghost use Rattle.json.specs.Json.{value, members, parse_map};
ghost use Rattle.serde_json.specs.Data.{no_members, object};
ghost use Rattle.serde_json.specs.Read.{of_json, of_members, converted};
ghost use Rattle.serde_json.specs.View.{view};
ghost use Rattle.request_fields.specs.Reading.{Keeps, KeepsAt};

use crate::level::Level;
use json::{Error, Reader, Token};
use json_fields::put_if;
use review_tables::{check_token, check_value};
use serde_json::{Map, Value};
use std::alloc::Global;

/// How deep lists and maps may nest, as in `serde_json`.
pub(crate) const MAX_DEPTH: usize = 127;

/// Reads the next value of the reader, and keeps what is at the level.
#[cycle(read_value)]
pub(crate) fn read_value(
    alloc: Global,
    reader: &mut Reader<'_>,
    level: Level,
    depth: usize,
) -> Result<Value, Error>
    ensures read { IfOk result (λ v. Keeps level (view v) (converted of_json (value depth reader.old)) reader.new) }
    ensures shorter { OnOk result (length reader.new < length reader.old) }
    ensures refused { result ≡ Err Error.Invalid → converted of_json (value depth reader.old) ≡ None }
{
    let token = reader.next().ok_or(Error::Invalid)?;
    match token {
        Token::BeginObject => {
            if depth == 0 {
                return Err(Error::Invalid);
            }
            read_members(alloc, reader, level, depth - 1)
        }
        Token::String(text) => Ok(Value::String(String::from_str(alloc, text)?)),
        Token::Null => Ok(Value::Null),
        _ => {
            check_token(reader, token, depth)?;
            Ok(Value::Bool(false))
        }
    }
}

#[cycle(read_value)]
fn read_members(
    alloc: Global,
    reader: &mut Reader<'_>,
    level: Level,
    depth: usize,
) -> Result<Value, Error>
    ensures read { IfOk result (λ v. Keeps level (view v) (parse_map object (converted (λ ms. of_members ms no_members) (members (value depth) (length reader.old) reader.old))) reader.new) }
    ensures shorter { OnOk result (length reader.new < length reader.old) }
    ensures refused { result ≡ Err Error.Invalid → converted (λ ms. of_members ms no_members) (members (value depth) (length reader.old) reader.old) ≡ None }
{
    let mut kept = Map::new(alloc);
    'members: while let Some(key) = reader.next_key()? {
        let member = read_member(alloc, reader, level.below(key), depth)?;
        kept = put_if(alloc, kept, key, member)?;
    }
    Ok(Value::Object(kept))
}

// Reads the next value of the reader; none if it is dropped.
#[cycle(read_value)]
fn read_member(
    alloc: Global,
    reader: &mut Reader<'_>,
    level: Option<Level>,
    depth: usize,
) -> Result<Option<Value>, Error>
    ensures read { IfOk result (λ o. KeepsAt level (option_map view o) (converted of_json (value depth reader.old)) reader.new) }
    ensures shorter { OnOk result (length reader.new < length reader.old) }
    ensures refused { result ≡ Err Error.Invalid → converted of_json (value depth reader.old) ≡ None }
{
    match level {
        Some(level) => Ok(Some(read_value(alloc, reader, level, depth)?)),
        None => {
            check_value(reader, depth)?;
            Ok(None)
        }
    }
}
