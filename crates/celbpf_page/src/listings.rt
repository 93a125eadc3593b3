//! Listings of images.
ghost use Rattle.std.specs.Prelude.{IfOk};
ghost use Rattle.insn_codec.specs.Statements.{Listing};
ghost use Rattle.celbpf_page.specs.Images.{text_view, IsListing};

use cli::Refusal;
use disassembler::{DisError, listing};
use loader::Image;
use std::alloc::{AllocError, Global};

/// The listing of the code of the image in a file.
pub fn listing_in(alloc: Global, file: &[u8]) -> Result<Vec<u8>, Refusal>
    ensures { IsListing file.now (text_view result) }
{
    match Image::read(alloc, file) {
        Ok(image) => match listed(alloc, image) {
            Ok(text) => Ok(text),
            Err(_) => Err(Refusal::Memory),
        },
        Err(error) => Err(Refusal::from(error)),
    }
}

/// The listing of an image's code, which has whole slots and is not too long.
fn listed(alloc: Global, image: Image) -> Result<Vec<u8>, AllocError>
    ensures { IfOk result (λ t. Listing image.code t.items) }
{
    match listing(alloc, image.code()) {
        Ok(text) => Ok(text.into_bytes()),
        Err(DisError::Memory) => Err(AllocError),
        Err(DisError::PartialSlot) | Err(DisError::CodeTooLong) => unreachable!(),
    }
}
