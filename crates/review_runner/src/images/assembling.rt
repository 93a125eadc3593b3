//! Assembles a program's text to the file of an image.
ghost use Rattle.std.specs.Prelude.{Ok};
ghost use Rattle.policy_glue.specs.OneImage.{OneImage};
ghost use Rattle.review_runner.specs.Making.{FileBy, MadeBy};
ghost use Rattle.review_runner.specs.declared.images.source_kind.SourceKind.TheVariants.{ProgramText};

use cli::Refusal;
use loader::Image;
use std::alloc::Global;
use std::str;

/// The bytes of the image's file, given the bytes of the text's file.
pub fn assembled_file(alloc: Global, held: &[u8]) -> Result<Vec<u8>, Refusal>
    ensures { MadeBy OneImage ProgramText (Ok held.now) result }
{
    let Ok(text) = str::from_utf8(held) else {
        return Err(Refusal::Text);
    };
    let code = assembler::assemble(alloc, text)?;
    file_of(alloc, code)
}

/// The bytes of the file of an image with this code and no constants.
#[tactic(auto, using(admission::proofs::Results::is_err))]
fn file_of(alloc: Global, code: Vec<u8>) -> Result<Vec<u8>, Refusal>
    ensures { FileBy code.items result }
{
    let image = Image::new(code, Vec::new(alloc))?;
    Ok(image.write()?)
}
