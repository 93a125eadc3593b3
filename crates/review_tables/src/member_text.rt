//! Finds the text at two keys of a JSON document. Nothing else of the document is kept.

ghost use Rattle.std.specs.Prelude.{◌≡◌, [], ◌∷◌, ◌<◌, ◌≤◌, length, map, option_map, string_bytes, None, Err, IfOk, OnErr, OnOk};
ghost use Rattle.json.specs.Json.{value, members};
ghost use Rattle.json.specs.Reads.{token_of};
ghost use Rattle.serde_json.specs.Data.{no_members};
ghost use Rattle.serde_json.specs.Read.{of_json, of_members, converted, read};
ghost use Rattle.value_store.specs.Documents.{document_of};
ghost use Rattle.review_tables.specs.MemberText.{text_at, FindsAmong, FindsNext, FindsText};

use crate::checking::{check_token, check_value};
use crate::read_error::ReadError;
use crate::reading::MAX_DEPTH;
use json::{Invalid, Reader, Scratch, Token};
use std::alloc::{AllocError, Global};

/// The text at the key `inner` of the object at the key `outer` of a JSON document, if there is
/// one. The document is read once. Memory is taken for its escaped texts only.
///
/// # Errors
///
/// An allocation failed.
pub fn text_at(
    alloc: Global,
    document: &[u8],
    outer: &str,
    inner: &str,
) -> Result<Option<String>, AllocError>
    ensures { IfOk result (λ t. option_map string_bytes t ≡ text_at outer.now inner.now (document_of document.now)) }
{
    let Ok(text) = simdutf8::basic::from_utf8(document) else {
        return Ok(None);
    };
    let mut scratch = Scratch::new(alloc);
    match text_in_document(text, &mut scratch, outer, inner) {
        Ok(found) => copied(alloc, found),
        Err(ReadError::Invalid) => Ok(None),
        Err(ReadError::Memory) => Err(AllocError),
    }
}

// A copy of a text, if there is one.
fn copied(alloc: Global, text: Option<&str>) -> Result<Option<String>, AllocError>
    ensures { IfOk result (λ t. option_map string_bytes t ≡ option_map (λ s. s.now) text.entry) }
{
    match text {
        Some(text) => Ok(Some(String::from_str(alloc, text)?)),
        None => Ok(None),
    }
}

// The text at two keys of the document of a text.
fn text_in_document<'a>(
    text: &'a str,
    scratch: &'a mut Scratch,
    outer: &str,
    inner: &str,
) -> Result<Option<&'a str>, ReadError>
    ensures found { IfOk result (λ t. option_map (λ s. s.now) t ≡ text_at outer.now inner.now (read text.now)) }
    ensures refused { result ≡ Err ReadError.Invalid → read text.now ≡ None }
{
    let mut reader = Reader::new(text, scratch)?;
    let keys = [outer, inner];
    let found = find_text(&mut reader, &keys, MAX_DEPTH)?;
    if reader.next().is_some() {
        return Err(ReadError::Invalid);
    }
    Ok(found)
}

// The text at some keys of the next value of the reader, each of the object at the key before it.
#[cycle(find_text)]
fn find_text<'a>(
    reader: &mut Reader<'a>,
    keys: &[&str],
    depth: usize,
) -> Result<Option<&'a str>, Invalid>
    ensures found { IfOk result (λ t. FindsText (map (λ s. s.now) keys.now) (option_map (λ s. s.now) t) (converted of_json (value depth reader.old)) reader.new) }
    ensures shorter { OnOk result (length reader.new < length reader.old) }
    ensures refused { OnErr result (converted of_json (value depth reader.old) ≡ None) }
{
    let token = reader.next().ok_or(Invalid)?;
    match keys {
        [] => text_of_token(reader, token, depth),
        [key, rest @ ..] => text_in_token(reader, token, key, rest, depth),
    }
}

// The value that begins with the token, if it is a text.
fn text_of_token<'a>(
    reader: &mut Reader<'a>,
    token: Token<'a>,
    depth: usize,
) -> Result<Option<&'a str>, Invalid>
    ensures found { IfOk result (λ t. FindsText [] (option_map (λ s. s.now) t) (converted of_json (value depth (token_of token.entry ∷ reader.old))) reader.new) }
    ensures shorter { OnOk result (length reader.new ≤ length reader.old) }
    ensures refused { OnErr result (converted of_json (value depth (token_of token.entry ∷ reader.old)) ≡ None) }
{
    match token {
        Token::String(text) => Ok(Some(text)),
        _ => {
            check_token(reader, token, depth)?;
            Ok(None)
        }
    }
}

// The text at a key and some more of the value that begins with the token.
#[cycle(find_text)]
fn text_in_token<'a>(
    reader: &mut Reader<'a>,
    token: Token<'a>,
    key: &str,
    rest: &[&str],
    depth: usize,
) -> Result<Option<&'a str>, Invalid>
    ensures found { IfOk result (λ t. FindsText (key.now ∷ map (λ s. s.now) rest.now) (option_map (λ s. s.now) t) (converted of_json (value depth (token_of token.entry ∷ reader.old))) reader.new) }
    ensures shorter { OnOk result (length reader.new ≤ length reader.old) }
    ensures refused { OnErr result (converted of_json (value depth (token_of token.entry ∷ reader.old)) ≡ None) }
{
    match token {
        Token::BeginObject => {
            if depth == 0 {
                return Err(Invalid);
            }
            text_in_members(reader, key, rest, depth - 1)
        }
        _ => {
            check_token(reader, token, depth)?;
            Ok(None)
        }
    }
}

// The text at some keys of the member with a key. If the key is repeated, the last member counts.
#[cycle(find_text)]
fn text_in_members<'a>(
    reader: &mut Reader<'a>,
    key: &str,
    rest: &[&str],
    depth: usize,
) -> Result<Option<&'a str>, Invalid>
    ensures found { let read = converted (λ ms. of_members ms no_members) (members (value depth) (length reader.old) reader.old) in
        IfOk result (λ t. FindsAmong key.now (map (λ s. s.now) rest.now) (option_map (λ s. s.now) t) read reader.new) }
    ensures shorter { OnOk result (length reader.new < length reader.old) }
    ensures refused { OnErr result (converted (λ ms. of_members ms no_members) (members (value depth) (length reader.old) reader.old) ≡ None) }
{
    let mut found = None;
    'members: while let Some(name) = reader.next_key()? {
        found = text_in_next(reader, name == key, rest, depth, found)?;
    }
    Ok(found)
}

// The text at some keys of the next value of the reader if it is the member with the key, and else
// what was found before.
#[cycle(find_text)]
fn text_in_next<'a>(
    reader: &mut Reader<'a>,
    has_key: bool,
    rest: &[&str],
    depth: usize,
    before: Option<&'a str>,
) -> Result<Option<&'a str>, Invalid>
    ensures found { let read = converted of_json (value depth reader.old) in
        IfOk result (λ t. FindsNext has_key (map (λ s. s.now) rest.now) (option_map (λ s. s.now) before.entry) (option_map (λ s. s.now) t) read reader.new) }
    ensures shorter { OnOk result (length reader.new < length reader.old) }
    ensures refused { OnErr result (converted of_json (value depth reader.old) ≡ None) }
{
    if has_key {
        return find_text(reader, rest, depth);
    }
    check_value(reader, depth)?;
    Ok(before)
}
