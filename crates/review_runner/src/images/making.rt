//! Makes the file of an image from another file.
ghost use Rattle.std.specs.Prelude.{◌≡◌, Ok};
ghost use Rattle.policy_glue.specs.OneImage.{OneImage};
ghost use Rattle.review_runner.specs.Making.{MadeBy, MadeOf};
ghost use Rattle.review_runner.specs.Output.{outcome_of};
ghost use Rattle.review_runner.specs.Performing.{making, PerformsBy};

use crate::images::assembling::assembled_file;
use crate::images::compiling::compiled_file;
use crate::images::source_kind::SourceKind;
use crate::report::Report;
use cli::Refusal;
use host::Files;
use std::alloc::Global;

/// Makes an image from one file and writes it to another. After a refusal the files are unchanged.
pub fn make_file<F: Files>(
    alloc: Global,
    kind: SourceKind,
    source: &str,
    image: &str,
    files: &mut F,
) -> Result<Report, Refusal>
    ensures { PerformsBy OneImage (F.known files.old) (making kind source.now image.now) (F.known files.new) (outcome_of result) }
{
    let file = made_file(alloc, kind, source, files)?;
    files.write(image, &file)?;
    Ok(Report::succeeded(Vec::new(alloc)))
}

/// The bytes of the image's file, made from the file with this name.
fn made_file<F: Files>(
    alloc: Global,
    kind: SourceKind,
    source: &str,
    files: &mut F,
) -> Result<Vec<u8>, Refusal>
    ensures made { MadeOf OneImage kind (F.known files.old) source.now result }
    ensures known { F.known files.new ≡ F.known files.old }
{
    let held = files.read(alloc, source)?;
    file_by(alloc, kind, &held)
}

/// The bytes of the image's file, given the contents of a file of this kind.
fn file_by(alloc: Global, kind: SourceKind, held: &[u8]) -> Result<Vec<u8>, Refusal>
    ensures { MadeBy OneImage kind (Ok held.now) result }
{
    match kind {
        SourceKind::PolicyDocument => compiled_file(alloc, held),
        SourceKind::ProgramText => assembled_file(alloc, held),
    }
}
