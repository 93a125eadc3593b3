//! Compiles the document of a policy to the file of an image.
ghost use Rattle.std.specs.Prelude.{Ok};
ghost use Rattle.policy_glue.specs.OneImage.{OneImage};
ghost use Rattle.review_runner.specs.Making.{MadeBy};
ghost use Rattle.review_runner.specs.declared.images.source_kind.SourceKind.TheVariants.{PolicyDocument};

use admission::compile_document;
use cli::Refusal;
use std::alloc::Global;

/// The bytes of the image's file, given the document of the policy.
pub fn compiled_file(alloc: Global, document: &[u8]) -> Result<Vec<u8>, Refusal>
    ensures { MadeBy OneImage PolicyDocument (Ok document.now) result }
{
    let compiled = compile_document(alloc, document)?;
    let file = compiled.image.write()?;
    Ok(file)
}
