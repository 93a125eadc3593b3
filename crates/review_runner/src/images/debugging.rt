//! Debug sessions with an image in a file.
ghost use Rattle.std.specs.Prelude.{◌≡◌, Ok};
ghost use Rattle.value_table.specs.Held.{held_contents};
ghost use Rattle.bpf_machine.specs.State.{start_state};
ghost use Rattle.review_runner.specs.Debugging.{held_of, held_view, DebugsByResult, HoldsFiles, SessionStarts};
ghost use Rattle.review_runner.specs.Order.{files_view};
ghost use Rattle.streams.specs.Streams.{stream};

use crate::documents::document_names::DocumentNames;
use crate::documents::held_files::{HeldFiles, read_files};
use admission::roots;
use cli::Refusal;
use debugger::session;
use host::{FileError, Files};
use loader::Image;
use std::alloc::Global;
use streams::{Sink, Source};
use value_store::ValueStore;
use value_table::Table;

/// A session with the image in the file with this name, on the roots of the documents in files. It
/// reads command lines from `r` and writes the output to `w`. All files are read first, in the
/// order of the words; then the image is checked, and then the documents; then lines are read from
/// `r`.
///
/// # Errors
///
/// `File`, `Image` and `Run` if there is nothing to debug, `Input` and `Output` if the session
/// broke off, `Memory` if an allocation failed before its first line.
pub fn debug<F: Files, R: Source, W: Sink>(
    alloc: Global,
    image: &str,
    documents: &DocumentNames,
    files: &mut F,
    r: &mut R,
    w: &mut W,
) -> Result<(), Refusal>
    ensures debugs { let written = stream (W.taken w.old) (W.failed w.old) in
        let written_after = stream (W.taken w.new) (W.failed w.new) in
        let read = stream (R.left r.old) (R.failed r.old) in
        let read_after = stream (R.left r.new) (R.failed r.new) in
        DebugsByResult (F.known files.old) image.now (files_view documents.now) read read_after written written_after result }
    ensures known { F.known files.new ≡ F.known files.old }
{
    let held = read_documents(alloc, image, documents, files)?;
    let (image, table) = start(alloc, &held)?;
    Ok(session(alloc, image, table, r, w)?)
}

/// Reads the files of the image and of the documents.
fn read_documents<F: Files>(
    alloc: Global,
    image: &str,
    documents: &DocumentNames,
    files: &mut F,
) -> Result<HeldFiles, FileError>
    ensures held { HoldsFiles (F.known files.old) image.now (files_view documents.now) (held_of result) }
    ensures known { F.known files.new ≡ F.known files.old }
{
    read_files(
        alloc,
        image,
        documents.review.as_deref(),
        &documents.namespace,
        &documents.params,
        files,
    )
}

/// The image, and the roots of the documents, in these files.
fn start(alloc: Global, held: &HeldFiles) -> Result<(Image, Table), Refusal>
    ensures { SessionStarts (λ p. start_state p.0 (held_contents p.1)) (Ok (held_view held.now)) result }
{
    let image = Image::read(alloc, &held.subject)?;
    let table = roots(
        alloc,
        held.review.as_deref(),
        held.namespace.as_deref(),
        held.params.as_deref(),
    )?;
    Ok((image, table))
}
