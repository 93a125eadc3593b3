//! Translates a policy.
ghost use Rattle.std.specs.Prelude.{◌≡◌};
ghost use Rattle.std.specs.Process.{exit_status};
ghost use Rattle.streams.specs.Streams.{stream, Stream};
ghost use Rattle.gatekeeper_runner.specs.Orders.{translation_order_view};
ghost use Rattle.gatekeeper_runner.specs.Program.{TranslationEnds};
ghost use Rattle.gatekeeper_runner.specs.Translating.{TranslatesFile, TranslatesFrom};

pub mod order;
pub mod ordering;
pub mod translation;

use crate::cluster::telling::add_notes;
use crate::endings::{end_start, tell_bytes, tell_text};
use crate::file_fault::FileFault;
use crate::file_reading::in_file;
use crate::labeling::label_of;
use crate::start_refusal::StartRefusal;
use cli::exit_with;
use host::ReadableFiles;
use order::TranslationOrder;
use policy_translation::{read_translated, translation_text};
use std::process::ExitCode;
use streams::Sink;
use translation::Translation;

/// Writes the translation of the policy that the order names, after the lines on what is left out
/// of it. Returns the code. No line is read.
pub fn answer_translation<F: ReadableFiles, W: Sink, E: Sink>(
    order: &TranslationOrder,
    files: &mut F,
    answers: &mut W,
    errors: &mut E,
) -> ExitCode
    ensures ends { (input : Stream) → TranslationEnds (F.known files.old) (translation_order_view order.now) input input
        (stream (W.taken answers.old) (W.failed answers.old)) (stream (W.taken answers.new) (W.failed answers.new))
        (stream (E.taken errors.old) (E.failed errors.old)) (stream (E.taken errors.new) (E.failed errors.new)) (exit_status result) }
    ensures known { F.known files.new ≡ F.known files.old }
{
    match translate(order, files) {
        Ok(translation) => {
            tell_bytes(translation.notes.as_slice(), errors);
            let ending = tell_text(translation.text.as_slice(), answers);
            exit_with(order.alloc, ending, errors)
        }
        Err(refusal) => end_start(order.alloc, refusal, errors),
    }
}

/// What is written for the policy in the file that the order names.
///
/// # Errors
///
/// What a start under this policy is refused for: its file, or the policy. `Memory` if an allocation
/// fails, which implies nothing about the file.
fn translate<F: ReadableFiles>(
    order: &TranslationOrder,
    files: &mut F,
) -> Result<Translation, StartRefusal>
    ensures translates { TranslatesFrom (F.known files.old) (translation_order_view order.now) result }
    ensures known { F.known files.new ≡ F.known files.old }
{
    match translate_file(order, files) {
        Ok(translation) => Ok(translation),
        Err(fault) => Err(in_file(order.alloc, order.file.as_str(), fault)),
    }
}

/// What is written for the policy in the file that the order names, or what is wrong with the file.
fn translate_file<F: ReadableFiles>(
    order: &TranslationOrder,
    files: &mut F,
) -> Result<Translation, FileFault>
    ensures translates { TranslatesFile (F.known files.old) (translation_order_view order.now) result }
    ensures known { F.known files.new ≡ F.known files.old }
{
    let alloc = order.alloc;
    let file = order.file.as_str();
    let document = files.read_file(alloc, file)?;
    let policy = read_translated(alloc, document.as_slice(), order.rule)?;
    let label = label_of(alloc, file, document.as_slice())?;
    let mut notes = Vec::new(alloc);
    add_notes(&mut notes, label.name.as_str(), policy.left_out.as_slice())?;
    let text = translation_text(alloc, policy)?;
    Ok(Translation { notes, text })
}
