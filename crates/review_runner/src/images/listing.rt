//! The listing of the image in a file.
ghost use Rattle.std.specs.Prelude.{◌≡◌, Ok, IfOk};
ghost use Rattle.policy_glue.specs.OneImage.{OneImage};
ghost use Rattle.review_runner.specs.Order.{list};
ghost use Rattle.review_runner.specs.Output.{outcome_of, report_of};
ghost use Rattle.review_runner.specs.Performing.{ListingOutcome, PerformsBy};

use crate::images::opening::open;
use crate::report::Report;
use cli::Refusal;
use disassembler::{DisError, listing};
use host::Files;
use loader::Image;
use std::alloc::{AllocError, Global};

/// Lists the code of the image in the file with this name.
pub fn list_file<F: Files>(alloc: Global, image: &str, files: &mut F) -> Result<Report, Refusal>
    ensures lists { PerformsBy OneImage (F.known files.old) (list image.now) (F.known files.new) (outcome_of result) }
    ensures known { F.known files.new ≡ F.known files.old }
{
    let opened = open(alloc, image, files)?;
    Ok(list_image(alloc, &opened)?)
}

/// Lists the image's code, which has whole slots and is not too long.
#[tactic(auto, using(crate::proofs::Readings::listing_was))]
fn list_image(alloc: Global, image: &Image) -> Result<Report, AllocError>
    ensures { IfOk result (λ a. ListingOutcome (Ok image.now) (Ok (report_of a))) }
{
    match listing(alloc, image.code()) {
        Ok(text) => Ok(Report::succeeded(text.into_bytes())),
        Err(DisError::Memory) => Err(AllocError),
        Err(DisError::PartialSlot) | Err(DisError::CodeTooLong) => unreachable!(),
    }
}
