//! The image in a file.
ghost use Rattle.std.specs.Prelude.{◌≡◌, Ok};
ghost use Rattle.review_runner.specs.Opening.{opened, IsDueResult, OpensFile};

use cli::Refusal;
use host::Files;
use loader::Image;
use std::alloc::Global;

/// The image in the file with this name.
pub fn open<F: Files>(alloc: Global, name: &str, files: &mut F) -> Result<Image, Refusal>
    ensures opens { OpensFile (F.known files.old) name.now result }
    ensures known { F.known files.new ≡ F.known files.old }
{
    let file = files.read(alloc, name)?;
    image_in(alloc, &file)
}

/// The image that the file holds.
fn image_in(alloc: Global, file: &[u8]) -> Result<Image, Refusal>
    ensures { IsDueResult (opened (Ok file.now)) result }
{
    Ok(Image::read(alloc, file)?)
}
