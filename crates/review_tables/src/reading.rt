//! Reads values of JSON texts token by token.

ghost use Rattle.std.specs.Prelude.{◌≡◌, ◌<◌, length, OnOk, IfOk, Err, option_map, Some, None};
ghost use Rattle.json.specs.Json.{value, items, members, parse_map};
ghost use Rattle.serde_json.specs.Data.{no_members, array, object};
ghost use Rattle.serde_json.specs.Read.{of_json, of_items, of_members, converted};
ghost use Rattle.value_store.specs.Value as kind;
ghost use Rattle.value_table.specs.Heap.{IsHeap};
ghost use Rattle.json.specs.Lex.{tokens};
ghost use Rattle.serde_json.specs.Read.{read as read_text};
ghost use Rattle.review_tables.specs.Reading.{ReadsEntries, ReadsValue, AddsPlaced, ReadsDocument};

use crate::collecting::{add_members, add_pending};
use crate::found_members::FoundMembers;
use crate::members::Members;
use crate::numbers::number;
use crate::pending_list::{PendingList, add_item};
use crate::pending_map::PendingMap;
use crate::placed::Placed;
use crate::read_error::ReadError;
use crate::read_memory::ReadMemory;
use json::{Reader, Token};
use std::alloc::AllocError;
use value_table::Heap;

/// How deep lists and maps may nest, as in `serde_json`.
pub(crate) const MAX_DEPTH: usize = 127;

/// Adds the value of a text. `None` if a number in the text is not a 64-bit signed integer.
pub(crate) fn read_text(
    heap: &mut Heap,
    text: &str,
    memory: &mut ReadMemory,
) -> Result<Option<Placed>, ReadError>
    requires { IsHeap heap.old }
    ensures read { IfOk result (λ p. ReadsDocument heap.old heap.new p (read_text text.now)) }
    ensures refused { result ≡ Err ReadError.Invalid → read_text text.now ≡ None }
{
    let mut reader = Reader::new(text, &mut memory.scratch)?;
    let value = read_value(heap, &mut reader, &mut memory.pending, MAX_DEPTH)?;
    if reader.next().is_some() {
        return Err(ReadError::Invalid);
    }
    Ok(value)
}

/// Adds the next value of the reader. `None` if a number in it is not a 64-bit signed integer.
/// Lists and maps may nest `depth` deep.
#[cycle(read_value)]
pub(crate) fn read_value(
    heap: &mut Heap,
    reader: &mut Reader<'_>,
    kept: &mut PendingMap,
    depth: usize,
) -> Result<Option<Placed>, ReadError>
    requires { IsHeap heap.old }
    ensures read { IfOk result (λ p. ReadsValue heap.old heap.new p (converted of_json (value depth reader.old)) reader.new) }
    ensures shorter { OnOk result (length reader.new < length reader.old) }
    ensures refused { result ≡ Err ReadError.Invalid → converted of_json (value depth reader.old) ≡ None }
{
    let token = reader.next().ok_or(ReadError::Invalid)?;
    match token {
        Token::String(text) => Ok(Some(add_text(heap, text)?)),
        Token::Number(text) => match number(text) {
            Some(n) => Ok(add_int(heap, n)?),
            None => Err(ReadError::Invalid),
        },
        Token::Bool(truth) => Ok(Some(add_bool(heap, truth)?)),
        Token::Null => Ok(Some(add_null(heap)?)),
        Token::EndObject | Token::EndArray | Token::Key(_) | Token::Bad => Err(ReadError::Invalid),
        Token::BeginArray => {
            if depth == 0 {
                return Err(ReadError::Invalid);
            }
            read_items(heap, reader, kept, depth - 1)
        }
        Token::BeginObject => {
            if depth == 0 {
                return Err(ReadError::Invalid);
            }
            read_members(heap, reader, kept, depth - 1)
        }
    }
}

#[cycle(read_value)]
#[inline(never)]
fn read_items(
    heap: &mut Heap,
    reader: &mut Reader<'_>,
    kept: &mut PendingMap,
    depth: usize,
) -> Result<Option<Placed>, ReadError>
    requires { IsHeap heap.old }
    ensures read { IfOk result (λ p. ReadsValue heap.old heap.new p (parse_map array (converted of_items (items (value depth) (length reader.old) reader.old))) reader.new) }
    ensures shorter { OnOk result (length reader.new < length reader.old) }
    ensures refused { result ≡ Err ReadError.Invalid → converted of_items (items (value depth) (length reader.old) reader.old) ≡ None }
{
    let mut pending = PendingList {
        places: Vec::new(heap.alloc()),
        size: 1,
        whole: true,
    };
    'items: while !reader.take_end_array() {
        let item = read_value(heap, reader, kept, depth)?;
        add_item(&mut pending, item)?;
    }
    Ok(add_pending(heap, &pending)?)
}

#[cycle(read_value)]
#[inline(never)]
fn read_members(
    heap: &mut Heap,
    reader: &mut Reader<'_>,
    kept: &mut PendingMap,
    depth: usize,
) -> Result<Option<Placed>, ReadError>
    requires { IsHeap heap.old }
    ensures read { IfOk result (λ p. ReadsValue heap.old heap.new p (parse_map object (converted (λ ms. of_members ms no_members) (members (value depth) (length reader.old) reader.old))) reader.new) }
    ensures shorter { OnOk result (length reader.new < length reader.old) }
    ensures refused { result ≡ Err ReadError.Invalid → converted (λ ms. of_members ms no_members) (members (value depth) (length reader.old) reader.old) ≡ None }
{
    let found = gather_members(heap, reader, kept, depth)?;
    Ok(add_members(heap, &found, kept)?)
}

/// Adds the values of the members that the reader reads next, and finds them by their keys. If a
/// key is repeated, the last member counts.
#[cycle(read_value)]
pub(crate) fn gather_members<'a>(
    heap: &mut Heap,
    reader: &mut Reader<'a>,
    kept: &mut PendingMap,
    depth: usize,
) -> Result<Members<'a>, ReadError>
    requires { IsHeap heap.old }
    ensures read { IfOk result (λ m. ReadsEntries heap.old heap.new m.entries (converted (λ ms. of_members ms no_members) (members (value depth) (length reader.old) reader.old)) reader.new) }
    ensures shorter { OnOk result (length reader.new < length reader.old) }
    ensures refused { result ≡ Err ReadError.Invalid → converted (λ ms. of_members ms no_members) (members (value depth) (length reader.old) reader.old) ≡ None }
{
    let mut found = FoundMembers::new(heap.alloc());
    'members: while let Some(key) = reader.next_key()? {
        let member = read_value(heap, reader, kept, depth)?;
        found.insert(key, member)?;
    }
    Ok(found.finish()?)
}

/// Adds a null.
pub(crate) fn add_null(heap: &mut Heap) -> Result<Placed, AllocError>
    requires { IsHeap heap.old }
    ensures { IfOk result (λ p. AddsPlaced heap.old heap.new (Some p) (Some kind.null)) }
{
    let place = heap.add_null()?;
    Ok(Placed { place, size: 1 })
}

fn add_bool(heap: &mut Heap, truth: bool) -> Result<Placed, AllocError>
    requires { IsHeap heap.old }
    ensures { IfOk result (λ p. AddsPlaced heap.old heap.new (Some p) (Some (kind.boolean truth))) }
{
    let place = heap.add_bool(truth)?;
    Ok(Placed { place, size: 1 })
}

fn add_text(heap: &mut Heap, text: &str) -> Result<Placed, AllocError>
    requires { IsHeap heap.old }
    ensures { IfOk result (λ p. AddsPlaced heap.old heap.new (Some p) (Some (kind.text text.now))) }
{
    let place = heap.add_text(text)?;
    let size = 1u64.saturating_add(text.len() as u64);
    Ok(Placed { place, size })
}

// Adds the int, if there is one.
fn add_int(heap: &mut Heap, n: Option<i64>) -> Result<Option<Placed>, AllocError>
    requires { IsHeap heap.old }
    ensures { IfOk result (λ p. AddsPlaced heap.old heap.new p (option_map kind.int n)) }
{
    match n {
        Some(n) => {
            let place = heap.add_int(n)?;
            Ok(Some(Placed { place, size: 1 }))
        }
        None => Ok(None),
    }
}
