//! Writes values as JSON.

ghost use Rattle.std.specs.Prelude.{◌≡◌, ◌<◌, ◌++◌, List, length, drop, IfOk, OnOk, string_bytes};
ghost use Rattle.std.specs.Str.{IsUtf8};
ghost use Rattle.value_store.specs.Value.{Value};
ghost use Rattle.value_store.specs.Json.{json_text};
ghost use Rattle.value_table.specs.Meaning.{value_in};
ghost use Rattle.value_table.specs.Heap.{heap_values, IsHeap};
ghost use Rattle.value_table.specs.Heads.{head, texts_of, IsReadable};
ghost use Rattle.value_table.specs.Equality.{AreContents, AreMeanings};
ghost use Rattle.value_table.specs.Tokens.{value_tokens, opening, closing, head_keys, name_tokens};
ghost use Rattle.value_table.specs.Heaps.{AreTexts};

use crate::cell::Cell;
use crate::content::Content;
use crate::equality::parts_of;
use crate::heap::Heap;
use crate::sequence::Sequence;
use json::Writer;
use std::alloc::{AllocError, Global};
use std::str::from_utf8_unchecked;
use value_backings::{Backings, Part, keys, text};

impl Heap {
    /// The value at a place as JSON. The memory is allocated at once, before the first byte is
    /// written.
    #[tactic(auto, using(crate::proofs::Comparisons::contents_of, crate::proofs::Growth::count_values, crate::proofs::Comparisons::meanings_of))]
    pub(crate) fn json(&self, alloc: Global, place: u64) -> Result<String, AllocError>
        requires heap { IsHeap self.now }
        requires inside { place < length (heap_values self.now) }
        ensures { IfOk result (λ s. string_bytes s ≡ json_text (value_in (heap_values self.now) place)) }
    {
        json_at(alloc, &self.cells, &self.backings, place)
    }
}

// The value at a place as JSON.
fn json_at(
    alloc: Global,
    cells: &Sequence<Cell>,
    backings: &Backings,
    place: u64,
) -> Result<String, AllocError>
    requires contents { AreContents backings.now cells.now }
    requires inside { place < length cells.now }
    ensures { (vs : List Value) → AreMeanings backings.now vs cells.now → IfOk result (λ s. string_bytes s ≡ json_text (value_in vs place)) }
{
    let cell = cells.at(place as usize);
    let room = Vec::with_capacity(alloc, cell.json as usize)?;
    let mut writer = Writer::new(room);
    write(cells, backings, &mut writer, place)?;
    let Ok(text) = String::from_utf8(writer.into_inner()) else {
        unreachable!();
    };
    Ok(text)
}

// Writes the value at a place. The recursion is as deep as the value.
#[tactic(auto, using(crate::proofs::Walks::part_before))]
fn write(
    cells: &Sequence<Cell>,
    backings: &Backings,
    writer: &mut Writer,
    place: u64,
) -> Result<(), AllocError>
    requires contents { AreContents backings.now cells.now }
    requires inside { place < length cells.now }
    ensures before { writer.new.before ≡ writer.old.before }
    ensures tokens { (vs : List Value) → AreMeanings backings.now vs cells.now → OnOk result (writer.new.tokens ≡ writer.old.tokens ++ value_tokens (value_in vs place)) }
{
    let cell = cells.at(place as usize);
    let content = cell.content;
    open(backings, writer, content)?;
    let names = names(backings, content);
    let parts = parts_of(backings, content);
    for i in 0..parts.len() {
        write_name(backings, writer, names, i)?;
        write(cells, backings, writer, parts[i] as u64)?;
    }
    close(backings, writer, content)?;
    Ok(())
}

// Writes the key at this place, if there is one.
fn write_name(
    backings: &Backings,
    writer: &mut Writer,
    names: &[Part],
    place: usize,
) -> Result<(), AllocError>
    requires { AreTexts backings.now.bytes names.now }
    ensures before { writer.new.before ≡ writer.old.before }
    ensures tokens { OnOk result (writer.new.tokens ≡ writer.old.tokens ++ name_tokens (texts_of backings.now.bytes (drop place names.now))) }
{
    if place < names.len() {
        return writer.key(read(text(backings.bytes.items(), names[place])));
    }
    Ok(())
}

fn open(backings: &Backings, writer: &mut Writer, content: Content) -> Result<(), AllocError>
    requires { IsReadable backings.now content }
    ensures before { writer.new.before ≡ writer.old.before }
    ensures tokens { OnOk result (writer.new.tokens ≡ writer.old.tokens ++ opening (head backings.now content)) }
{
    match content {
        Content::Null => writer.null(),
        Content::Bool(b) => writer.boolean(b),
        Content::Int(n) => writer.i64(n),
        Content::Text(part) => writer.string(read(text(backings.bytes.items(), part))),
        Content::List(_, _) => writer.begin_array(),
        Content::Map(_, _, _) => writer.begin_object(),
    }
}

fn close(backings: &Backings, writer: &mut Writer, content: Content) -> Result<(), AllocError>
    ensures before { writer.new.before ≡ writer.old.before }
    ensures tokens { OnOk result (writer.new.tokens ≡ writer.old.tokens ++ closing (head backings.now content)) }
{
    match content {
        Content::List(_, _) => writer.end_array(),
        Content::Map(_, _, _) => writer.end_object(),
        _ => Ok(()),
    }
}

// The keys of a map.
fn names(backings: &Backings, content: Content) -> &[Part]
    requires { IsReadable backings.now content }
    ensures texts { AreTexts backings.now.bytes result.now }
    ensures keys { texts_of backings.now.bytes result.now ≡ head_keys (head backings.now content) }
{
    match content {
        Content::Map(row, _, count) => keys(backings.keys.items(), row as u64, count as u64),
        _ => &[],
    }
}

fn read(bytes: &[u8]) -> &str
    requires { IsUtf8 bytes.now }
    ensures { result.now ≡ bytes.now }
{
    // The bytes of each text are UTF-8.
    unsafe { from_utf8_unchecked(bytes) }
}
