//! Reads reviews (AdmissionReview, `admission.k8s.io/v1`) token by token.

ghost use Rattle.std.specs.Prelude.{◌≡◌, ◌<◌, ◌&&◌, length, None, Err, IfOk, OnOk, if◌then◌else◌};
ghost use Rattle.json.specs.Json.{value, members};
ghost use Rattle.serde_json.specs.Data.{no_members};
ghost use Rattle.serde_json.specs.Read.{of_json, of_members, converted, max_depth, read};
ghost use Rattle.value_table.specs.Heap.{heap_values, IsHeap};
ghost use Rattle.review_tables.specs.ReviewReading.{ReadsMember, ReadsMembers, ReadsRequest, ReadsReview, ComparesText, ReadsReviewValue};

use crate::checking::{check_token, check_value};
use crate::pending_map::PendingMap;
use crate::placed_request::PlacedRequest;
use crate::read_error::ReadError;
use crate::read_memory::ReadMemory;
use crate::reading::{MAX_DEPTH, gather_members};
use crate::requests::request_of;
use crate::review_fields::ReviewFields;
use json::{Reader, Token};
use value_table::Heap;

/// How deep lists and maps may nest in a member of a review.
const MEMBER_DEPTH: usize = MAX_DEPTH - 1;

/// Reads a review. If the text is a review, the values of its request are added to the heap.
pub(crate) fn read_review(
    heap: &mut Heap,
    text: &str,
    memory: &mut ReadMemory,
) -> Result<Option<PlacedRequest>, ReadError>
    requires { IsHeap heap.old }
    ensures read { IfOk result (λ r. ReadsReview heap.old heap.new r (read text.now)) }
    ensures refused { result ≡ Err ReadError.Invalid → read text.now ≡ None }
{
    let mut reader = Reader::new(text, &mut memory.scratch)?;
    let request = read_whole(heap, &mut reader, &mut memory.pending)?;
    if reader.next().is_some() {
        return Err(ReadError::Invalid);
    }
    Ok(request)
}

// The request in the next value of the reader, if that is a review.
fn read_whole(
    heap: &mut Heap,
    reader: &mut Reader<'_>,
    kept: &mut PendingMap,
) -> Result<Option<PlacedRequest>, ReadError>
    requires { IsHeap heap.old }
    ensures read { IfOk result (λ r. ReadsReviewValue heap.old heap.new r (converted of_json (value max_depth reader.old)) reader.new) }
    ensures refused { result ≡ Err ReadError.Invalid → converted of_json (value max_depth reader.old) ≡ None }
{
    let token = reader.next().ok_or(ReadError::Invalid)?;
    match token {
        Token::BeginObject => {
            let found = read_members(heap, reader, kept)?;
            Ok(found.request_of_review())
        }
        _ => {
            check_token(reader, token, MAX_DEPTH)?;
            Ok(None)
        }
    }
}

impl ReviewFields {
    // The request, if the version and the kind are right.
    fn request_of_review(&self) -> Option<PlacedRequest>
        ensures { result ≡ (if self.now.version && self.now.kind then self.now.request else None) }
    {
        if self.version && self.kind {
            self.request
        } else {
            None
        }
    }
}

// Reads the members of a review.
fn read_members(
    heap: &mut Heap,
    reader: &mut Reader<'_>,
    kept: &mut PendingMap,
) -> Result<ReviewFields, ReadError>
    requires { IsHeap heap.old }
    ensures read { IfOk result (λ f. ReadsMembers heap.old heap.new f (converted (λ ms. of_members ms no_members) (members (value 126) (length reader.old) reader.old)) reader.new) }
    ensures shorter { OnOk result (length reader.new < length reader.old) }
    ensures refused { result ≡ Err ReadError.Invalid → converted (λ ms. of_members ms no_members) (members (value 126) (length reader.old) reader.old) ≡ None }
{
    let mut found = ReviewFields {
        version: false,
        kind: false,
        request: None,
    };
    'members: while let Some(key) = reader.next_key()? {
        read_member(heap, reader, kept, key, &mut found)?;
    }
    Ok(found)
}

// Reads one member of a review. If a key is repeated, the last member counts.
fn read_member(
    heap: &mut Heap,
    reader: &mut Reader<'_>,
    kept: &mut PendingMap,
    key: &str,
    found: &mut ReviewFields,
) -> Result<(), ReadError>
    requires { IsHeap heap.old }
    ensures read { OnOk result (ReadsMember heap.old heap.new found.old found.new key.now (converted of_json (value 126 reader.old)) reader.new) }
    ensures shorter { OnOk result (length reader.new < length reader.old) }
    ensures refused { result ≡ Err ReadError.Invalid → converted of_json (value 126 reader.old) ≡ None }
{
    if key == "request" {
        found.request = read_request(heap, reader, kept)?;
        return Ok(());
    }
    if key == "apiVersion" {
        found.version = read_is(reader, "admission.k8s.io/v1")?;
        return Ok(());
    }
    if key == "kind" {
        found.kind = read_is(reader, "AdmissionReview")?;
        return Ok(());
    }
    check_value(reader, MEMBER_DEPTH)?;
    Ok(())
}

// Whether the next value of the reader is this text.
fn read_is(reader: &mut Reader<'_>, text: &str) -> Result<bool, ReadError>
    ensures read { IfOk result (λ b. ComparesText b text.now (converted of_json (value 126 reader.old)) reader.new) }
    ensures shorter { OnOk result (length reader.new < length reader.old) }
    ensures refused { result ≡ Err ReadError.Invalid → converted of_json (value 126 reader.old) ≡ None }
{
    let token = reader.next().ok_or(ReadError::Invalid)?;
    match token {
        Token::String(other) => Ok(other == text),
        _ => {
            check_token(reader, token, MEMBER_DEPTH)?;
            Ok(false)
        }
    }
}

// Reads a request. The values of an earlier request stay in the heap and are not charged.
fn read_request(
    heap: &mut Heap,
    reader: &mut Reader<'_>,
    kept: &mut PendingMap,
) -> Result<Option<PlacedRequest>, ReadError>
    requires { IsHeap heap.old }
    ensures read { IfOk result (λ r. ReadsRequest heap.old heap.new r (converted of_json (value 126 reader.old)) reader.new) }
    ensures shorter { OnOk result (length reader.new < length reader.old) }
    ensures refused { result ≡ Err ReadError.Invalid → converted of_json (value 126 reader.old) ≡ None }
{
    let token = reader.next().ok_or(ReadError::Invalid)?;
    match token {
        Token::BeginObject => {
            let found = gather_members(heap, reader, kept, MEMBER_DEPTH - 1)?;
            Ok(request_of(heap, found, kept)?)
        }
        _ => {
            check_token(reader, token, MEMBER_DEPTH)?;
            Ok(None)
        }
    }
}
